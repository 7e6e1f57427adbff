// Draws stored files of wanted calls at stored turns: the arguments are pairs, the name of a file of wanted calls and
// that of a file of turns. Each is run with a schedule's buffer of 8,197 bytes, all ee. For each it writes `run` and
// both names, the sheet, and the buffer's first 5 + 2 * K bytes in hexadecimal, K being the number of steps given.
#![tactic(auto)]

use arguments::{read_pair, report, write_run};
use bench::{Locks, write_both};
use drawer::draw_file;
use hex_text::put_line;
use std::{env, io};
use text::{Page, join};

// At most one byte more of a file of wanted calls is read than the longest good one has, as in the program `dispatch`.
// The sheet is written from what `draw_file` left, so that this entry point is run by the gate.
fn main(rt: HostRuntime) -> io::Result<()> {
    let mut one = [0u8; 4096];
    let mut calls = [0u8; 8198];
    let mut two = [0u8; 4096];
    let mut turns = [0u8; 32768];
    // Kept: the loop stands here, since no contract can say what arguments there are: only a `main` promises nothing.
    for i in (1..env::args(&rt)?.len()).step_by(2) {
        let Some((a, b)) = read_pair(&rt, i, &mut one, &mut calls, &mut two, &mut turns) else {
            continue;
        };
        let mut schedule = [0xeeu8; 8197];
        let mut locks: Locks = [[0; 512]; 2];
        let ran = draw_file(
            &calls[0..a.length],
            &turns[0..b.length],
            &mut schedule,
            8192,
            &mut locks,
        );
        let end = 5 + 2 * ran.taken;
        let mut sheet = [0u8; 8192];
        let len = write_both(&mut sheet, ran, &locks).unwrap_or(0);
        let mut bytes = [0u8; 32768];
        let mut page = Page::new(&mut bytes);
        put_line(&mut page, b"bytes", &schedule[0..end]);
        let long = page.at;
        let line = &bytes[0..long];
        let mut names = [0u8; 8193];
        let both = join(&mut names, &one[0..a.named], &two[0..b.named]).unwrap_or(0);
        let written = write_run(&mut rt.stdout(), &names[0..both], &sheet[0..len]).and_then(
            |()| rt.write_all(line),
        );
        report(&rt, "draw_runs", written)?;
    }
    Ok(())
}
