// The program for a stream: reads a record from standard input piece by piece and holds it, and writes its sheet to
// standard output at the first row that is not held, or at the end. The sheet is that of all bytes read, so a stream
// that ends inside a row gets refusal 3. Its memory is the two locks, one piece and the sheet, whatever the record's
// length.
#![tactic(auto)]

ghost use Rattle.record_model.specs.Told.{told_of};
ghost use Rattle.record_hold.specs.Holds.{StandsSomewhere};
ghost use Rattle.record.specs.Streamed.{Streamed};

use arguments::{read_full, report};
use file::sizes_of;
use lock::Sizes;
use record_hold::{Locks, begin, hold_more};
use record_model::NotHeld;
use record_report::write_told;
use std::io;
use std::io::Read;

// Reads and holds pieces of 4,096 rows, until one is short, which is the last, or is not held.
fn hold_rest<R: Read>(source: &mut R, z: Sizes, locks: &mut Locks) -> Result<usize, NotHeld>
    requires { StandsSomewhere z 0 locks.old }
    ensures { Streamed z locks.new (told_of result) }
{
    let mut held: usize = 0;
    loop {
        let mut piece = [0u8; 32768];
        let length = read_full(source, &mut piece);
        let next = hold_more(z, held, &piece[..length], locks)?;
        if next < held + 4096 {
            return Ok(next);
        }
        held = next;
    }
}

fn main(rt: HostRuntime) -> io::Result<()> {
    let mut source = rt.stdin();
    let mut head = [0u8; 3];
    let length = read_full(&mut source, &mut head);
    let z = sizes_of(&head[..length]);
    let mut locks: Locks = [[0; 512]; 2];
    let told = match begin(&head[..length], &mut locks) {
        Ok(()) => hold_rest(&mut source, z, &mut locks),
        Err(refusal) => Err(NotHeld::from(refusal)),
    };
    let mut sheet = [0u8; 8192];
    let len = write_told(&mut sheet, z, told, &locks).unwrap_or(0);
    report(&rt, "record", rt.write_all(&sheet[..len]))
}
