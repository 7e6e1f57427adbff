// The sheet program: reads one schedule file from standard input, and the till from the file `till` of the folder in
// which it runs, where there is one, and writes the sheet to standard output. What fails is said on standard error,
// where the script `./sheet` looks for it.
#![tactic(auto)]

use sheet_input::write_sheet;
use std::io;

fn main(rt: HostRuntime) -> io::Result<()> {
    if let Err(error) = write_sheet(&rt, &mut rt.stdin(), &mut rt.stdout()) {
        eprintln!(rt; "sheet: {error}")?;
    }
    Ok(())
}
