// The ticket lock's program: reads one ticket file from standard input and writes its sheet to standard output.
#![tactic(auto)]

use arguments::{report, write_sheet};
use std::io;
use ticket_report::sheet_file;

// At most one byte more is read than the longest good file has, 5 + 2 * 4,096: the first bytes of a longer file are
// refused as all of it (the theorem `long-file` of the crate `ticket_model`). What fails is said on standard error,
// where the script `./sheet` looks for it.
fn main(rt: HostRuntime) -> io::Result<()> {
    let mut file = [0u8; 8198];
    let written = write_sheet(
        &mut rt.stdin(),
        &mut rt.stdout(),
        &mut file,
        |file, sheet| { sheet_file(file, sheet).unwrap_or(0) },
    );
    report(&rt, "ticket", written)
}
