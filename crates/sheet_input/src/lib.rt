// The sheet of a schedule file that a source gives, with the till from the file `till` of the folder in which the
// program runs, where there is one.
#![tactic(auto)]

ghost use Rattle.std.specs.Prelude.{IfOk, IfSome, OnOk};
ghost use Rattle.arguments.specs.Counts.{IsPrefixLen};
ghost use Rattle.sheet_input.specs.Written.{WritesSheet};

use arguments::read_full;
use credit::sheet_if;
use std::error::Error;
use std::io::{ErrorKind, Read, Write};
use std::rt::Files;
use std::{fmt, fs, io};

// What fails: the till is there and cannot be read, or the sheet cannot be written.
#[derive(Debug, Drop)]
pub enum SheetError {
    Till(io::Error),
    Output(io::Error),
}

impl fmt::Display for SheetError {
    fn fmt<W: fmt::Write>(&self, f: &mut fmt::Formatter<W>) -> fmt::Result {
        match self {
            SheetError::Till(error) => write!(f, "till: {error}"),
            SheetError::Output(error) => write!(f, "standard output: {error}"),
        }
    }
}

impl Error for SheetError {}

// Reads the till, as far as the buffer goes, where there is one. A till that is there and cannot be read is no missing
// till. `read_full` ends where a read fails, as at the file's end, so one more read tells the two apart.
fn read_till(rt: &impl Files, till: &mut [u8]) -> io::Result<Option<usize>>
    ensures { IfOk result (λ lent. IfSome lent (λ n. IsPrefixLen n till.new)) }
{
    let mut source = match fs::open(rt, "till") {
        Ok(source) => source,
        Err(error) if error.kind() == ErrorKind::NotFound => return Ok(None),
        Err(error) => return Err(error),
    };
    let long = read_full(&mut source, till);
    source.read(&mut [0u8; 1])?;
    Ok(Some(long))
}

// The longest good file has 5 + 2 * 4,096 bytes, and the longest good till 2 + 3 * 32. At most one byte more is read of
// each: with it no length is good, so a longer file is refused whatever follows. The journal has room for the entries
// of the longest file, so refusal 4 does not arise here. Nothing is written where the till cannot be read.
pub fn write_sheet<R: Read, W: Write>(
    rt: &impl Files,
    source: &mut R,
    to: &mut W,
) -> Result<(), SheetError>
    ensures { OnOk result (WritesSheet
        (R.remaining source.old) (R.remaining source.new) (W.contents to.old) (W.contents to.new)) }
{
    let mut file = [0u8; 8198];
    let length = read_full(source, &mut file);
    let mut till = [0u8; 99];
    let lent = read_till(rt, &mut till).map_err(SheetError::Till)?;
    let mut journal = [0u8; 8192];
    let mut sheet = [0u8; 8192];
    let till = match lent {
        Some(long) => Some(&till[0..long]),
        None => None,
    };
    let len = sheet_if(&file[0..length], till, &mut journal, &mut sheet).unwrap_or(0);
    to.write_all(&sheet[0..len]).map_err(SheetError::Output)
}
