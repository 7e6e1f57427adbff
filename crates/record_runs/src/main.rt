// Holds stored records: each argument names a file. For each it writes `run`, the name and the record's sheet, and
// then the sheet of the record in two pieces.
#![tactic(auto)]

ghost use Rattle.std.specs.Prelude.{OnOk};
ghost use Rattle.text.specs.Asked.{length_of};
ghost use Rattle.record_model.specs.Told.{told_of};
ghost use Rattle.record_runs.specs.Fronts.{HoldsFront, SheetsFront, WritesSheets};

use arguments::{read_argument, report, write_run};
use file::sizes_of;
use lock::Refusal;
use record_hold::{Locks, begin, hold_more};
use record_model::NotHeld;
use record_report::{sheet_record, write_told};
use std::io::Write;
use std::{env, io};

// Holds a record in two pieces, cut behind the first half of its rows. Where a row of the first ends it, or the first
// three bytes refuse it, the rest is not looked at.
fn hold_in_two(file: &[u8], locks: &mut Locks) -> Result<usize, NotHeld>
    ensures { HoldsFront file.now locks.new (told_of result) }
{
    begin(file, locks)?;
    let z = sizes_of(file);
    let cut = 3 + (file.len() - 3) / 16 * 8;
    let half = hold_more(z, 0, &file[3..cut], locks)?;
    hold_more(z, half, &file[cut..], locks)
}

// Writes the sheet of a record that is held in two pieces.
fn sheet_in_two(file: &[u8], sheet: &mut [u8]) -> Result<usize, Refusal>
    ensures { SheetsFront file.now sheet.old sheet.new (length_of result) }
{
    let mut locks: Locks = [[0; 512]; 2];
    let told = hold_in_two(file, &mut locks);
    write_told(sheet, sizes_of(file), told, &locks)
}

// Writes `run`, the name and both sheets.
fn write_sheets<W: Write>(to: &mut W, name: &[u8], file: &[u8]) -> io::Result<()>
    ensures { OnOk result (WritesSheets name.now file.now (W.contents to.old) (W.contents to.new)) }
{
    let mut sheet = [0u8; 8192];
    let len = sheet_record(file, &mut sheet).unwrap_or(0);
    let mut second = [0u8; 8192];
    let two = sheet_in_two(file, &mut second).unwrap_or(0);
    write_run(to, name, &sheet[..len])?;
    to.write_all(b"in two pieces\n")?;
    to.write_all(&second[..two])
}

fn main(rt: HostRuntime) -> io::Result<()> {
    let mut name = [0u8; 4096];
    let mut file = [0u8; 65536];
    // Kept: the loop stands here, since no contract can say what arguments there are: only a `main` promises nothing.
    for i in 1..env::args(&rt)?.len() {
        let Some(given) = read_argument(&rt, i, &mut name, &mut file) else {
            continue;
        };
        let written = write_sheets(
            &mut rt.stdout(),
            &name[0..given.named],
            &file[0..given.length],
        );
        report(&rt, "record_runs", written)?;
    }
    Ok(())
}
