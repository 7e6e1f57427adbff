// Runs stored sites at stored turns: the arguments are pairs, the name of a site file and that of a file of turns. For
// each it writes `run` and both names, the sheet, and the length that `sheet_site` gives.
#![tactic(auto)]

use arguments::{read_pair, report, write_run};
use site_report::sheet_site;
use std::{env, io};
use text::join;

// At most one byte more of a site file is read than the longest good one has.
fn main(rt: HostRuntime) -> io::Result<()> {
    let mut one = [0u8; 4096];
    let mut site = [0u8; 8204];
    let mut two = [0u8; 4096];
    let mut turns = [0u8; 32768];
    // Kept: the loop stands here, since no contract can say what arguments there are: only a `main` promises nothing.
    for i in (1..env::args(&rt)?.len()).step_by(2) {
        let Some((a, b)) = read_pair(&rt, i, &mut one, &mut site, &mut two, &mut turns) else {
            continue;
        };
        let mut sheet = [0u8; 8192];
        let len = sheet_site(&site[0..a.length], &turns[0..b.length], &mut sheet).unwrap_or(0);
        let mut names = [0u8; 8193];
        let both = join(&mut names, &one[0..a.named], &two[0..b.named]).unwrap_or(0);
        let written = write_run(&mut rt.stdout(), &names[0..both], &sheet[0..len]).and_then(
            |()| println!(rt; "length {len}"),
        );
        report(&rt, "site_runs", written)?;
    }
    Ok(())
}
