// Runs stored files of calls on the plain engine: each argument names a file. For each it writes `run`, the name and
// the sheet.
#![tactic(auto)]

use arguments::{read_argument, report, write_run};
use plain_report::sheet_file;
use std::{env, io};

// At most one byte more of a file is read than the longest good file has, as in the program `plain`.
fn main(rt: HostRuntime) -> io::Result<()> {
    let mut name = [0u8; 4096];
    let mut file = [0u8; 8198];
    // Kept: the loop stands here, since no contract can say what arguments there are: only a `main` promises nothing.
    for i in 1..env::args(&rt)?.len() {
        let Some(given) = read_argument(&rt, i, &mut name, &mut file) else {
            continue;
        };
        let mut sheet = [0u8; 8192];
        let len = sheet_file(&file[0..given.length], &mut sheet).unwrap_or(0);
        let written = write_run(&mut rt.stdout(), &name[0..given.named], &sheet[0..len]);
        report(&rt, "plain_runs", written)?;
    }
    Ok(())
}
