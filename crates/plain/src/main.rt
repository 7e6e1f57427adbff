// The plain engine's program: reads one file of calls from standard input and writes its sheet to standard output.
#![tactic(auto)]

use arguments::{report, write_sheet};
use plain_report::sheet_file;
use std::io;

// At most one byte more is read than the longest good file has, as in the program `sheet`. What fails is said on
// standard error.
fn main(rt: HostRuntime) -> io::Result<()> {
    let mut file = [0u8; 8198];
    let written = write_sheet(
        &mut rt.stdin(),
        &mut rt.stdout(),
        &mut file,
        |file, sheet| { sheet_file(file, sheet).unwrap_or(0) },
    );
    report(&rt, "plain", written)
}
