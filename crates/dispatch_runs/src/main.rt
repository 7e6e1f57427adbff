// Runs stored files of wanted calls through the dispatcher: each argument names a file. It is run with a schedule's
// buffer of 8,197 bytes, all ee. For each it writes `run` and the name, the sheet, and the buffer's first 5 + 2 * K
// bytes in hexadecimal, K being the number of steps given.
#![tactic(auto)]

use arguments::{read_argument, report, write_run};
use bench::{Locks, write_both};
use dispatcher::dispatch_file;
use hex_text::put_line;
use std::{env, io};
use text::Page;

// At most one byte more of a file is read than the longest good file has, as in the program `dispatch`. The sheet is
// written from what `dispatch_file` left, so that this entry point too is run by the gate.
fn main(rt: HostRuntime) -> io::Result<()> {
    let mut name = [0u8; 4096];
    let mut file = [0u8; 8198];
    // Kept: the loop stands here, since no contract can say what arguments there are: only a `main` promises nothing.
    for i in 1..env::args(&rt)?.len() {
        let Some(given) = read_argument(&rt, i, &mut name, &mut file) else {
            continue;
        };
        let mut schedule = [0xeeu8; 8197];
        let mut locks: Locks = [[0; 512]; 2];
        let ran = dispatch_file(&file[0..given.length], &mut schedule, 8192, &mut locks);
        let end = 5 + 2 * ran.taken;
        let mut sheet = [0u8; 8192];
        let len = write_both(&mut sheet, ran, &locks).unwrap_or(0);
        let mut bytes = [0u8; 32768];
        let mut page = Page::new(&mut bytes);
        put_line(&mut page, b"bytes", &schedule[0..end]);
        let long = page.at;
        let line = &bytes[0..long];
        let written = write_run(&mut rt.stdout(), &name[0..given.named], &sheet[0..len]).and_then(
            |()| rt.write_all(line),
        );
        report(&rt, "dispatch_runs", written)?;
    }
    Ok(())
}
