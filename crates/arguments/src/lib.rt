// The files that arguments name, and what is written of each, for programs that run stored files; and a whole file read
// into a lent buffer.
#![tactic(auto)]

ghost use Rattle.arguments.specs.Called.{OfFile, OfPair, ComesToFail};
ghost use Rattle.arguments.specs.Counts.{IsPrefixLen};
ghost use Rattle.arguments.specs.Runs.{run_text};
ghost use Rattle.arguments.specs.Written.{WritesSheet};
ghost use Rattle.std.specs.Prelude.{◌≡◌, ◌⊎◌, ℕ, ◌≤◌, length, IfSome, IsOk, OnErr, OnOk, take};
ghost use Rattle.std.specs.Io.KnownBytes.{Appends, Consumes};

use std::alloc::Alloc;
use std::env::FillError;
use std::io::{Read, Write};
use std::rt::{Env, Files};
use std::{env, fs, io, str};
use text::{ROOM, join};

// How many bytes of the two buffers are the file's name and its bytes.
// Kept: counts, not the parts themselves, since the clause of `read_argument` names both buffers after the call, and a
// part that is handed on hides them.
#[derive(Clone, Copy)]
pub struct Given {
    pub named: usize,
    pub length: usize,
}

// Reads until the buffer is full, the source ends or a read fails, and says how many bytes then stand in the buffer.
// Where the source's bytes are known, these are the ones that it lost.
pub fn read_full<R: Read>(source: &mut R, buffer: &mut [u8]) -> usize
    ensures within { IsPrefixLen result buffer.new }
    ensures bytes { Consumes (R.remaining source.old) (R.remaining source.new) (take result buffer.new) }
{
    let mut done = 0;
    // Kept: the count is asked before each read. A read into a full buffer gives nothing, but it is one call of the
    // system more, and a source may wait in it for bytes that nobody wants.
    while done < buffer.len() {
        match source.read(&mut buffer[done..]) {
            Ok(0) => return done,
            Ok(n) => done += n,
            Err(_) => return done,
        }
    }
    done
}

// Takes argument i and says how long it is. Where it is missing or too long, standard error says so.
pub fn take_argument(rt: &(impl Env + Eprint), i: usize, name: &mut [u8]) -> Option<usize>
    ensures { IfSome result (λ n. IsPrefixLen n name.new) }
{
    match rt.arg(i, name) {
        Ok(named) => Some(named),
        Err(FillError::NotPresent) => {
            let _ = eprintln!(rt; "argument: Invalid argument");
            None
        }
        Err(FillError::TooLong) => {
            let _ = eprintln!(rt; "argument: File name too long");
            None
        }
    }
}

// Reads the file of this name, as far as the buffer goes, and says how many bytes stand there. Where it cannot be
// opened, standard error says why.
pub fn read_file(rt: &(impl Files + Eprint), name: &[u8], file: &mut [u8]) -> Option<usize>
    ensures { IfSome result (λ n. IsPrefixLen n file.new) }
{
    let Ok(path) = str::from_utf8(name) else {
        let _ = eprintln!(rt; "argument: not UTF-8");
        return None;
    };
    match fs::open(rt, path) {
        Ok(mut source) => Some(read_full(&mut source, file)),
        Err(error) => {
            let _ = eprintln!(rt; "{path}: {error}");
            None
        }
    }
}

// Reads the file that argument i names, as far as the buffer goes. Where that fails standard error says why. No contract
// of a read names the bytes read (docs/DECISIONS.md, 185): it promises that both counts lie within their buffers.
pub fn read_argument(
    rt: &(impl Env + Files + Eprint),
    i: usize,
    name: &mut [u8],
    file: &mut [u8],
) -> Option<Given>
    ensures { IfSome result
        (λ given. (IsPrefixLen given.named name.new) × (IsPrefixLen given.length file.new)) }
{
    let named = take_argument(rt, i, name)?;
    let length = read_file(rt, &name[0..named], file)?;
    Some(Given { named, length })
}

// Reads the files that argument i and the one behind it name. Both are read before either is judged, so standard error
// says of each why it cannot be read.
// Kept: four buffers apart, since the clauses name each of them after the call.
pub fn read_pair(
    rt: &(impl Env + Files + Eprint),
    i: usize,
    one: &mut [u8],
    first: &mut [u8],
    two: &mut [u8],
    second: &mut [u8],
) -> Option<(Given, Given)>
    ensures first { IfSome result
        (λ pair. (IsPrefixLen pair.0.named one.new) × (IsPrefixLen pair.0.length first.new)) }
    ensures second { IfSome result
        (λ pair. (IsPrefixLen pair.1.named two.new) × (IsPrefixLen pair.1.length second.new)) }
{
    let of_one = read_argument(rt, i, one, first);
    let of_two = read_argument(rt, i.checked_add(1)?, two, second);
    Some((of_one?, of_two?))
}

// Writes `run`, the name and the text of one run.
pub fn write_run<W: Write>(to: &mut W, name: &[u8], text: &[u8]) -> io::Result<()>
    ensures { OnOk result (Appends (W.contents to.old) (W.contents to.new) (run_text name.now text.now)) }
{
    to.write_all(b"run ")?;
    to.write_all(name)?;
    to.write_all(b"\n")?;
    to.write_all(text)
}

// Writes the sheet of what the source gives, as far as the lent buffer goes: `sheet_of` writes it into a buffer that
// every sheet fits, and says how long it is.
pub fn write_sheet<R: Read, W: Write, F: FnOnce(&[u8], &mut [u8]) -> usize>(
    source: &mut R,
    to: &mut W,
    file: &mut [u8],
    sheet_of: F,
) -> io::Result<()>
    requires called { F.IsAlwaysCallable sheet_of }
    requires within { (a b : _) (n : ℕ) (c : _) → F.post sheet_of a b n c → n ≤ length c.now }
    ensures { OnOk result (WritesSheet (F.post sheet_of)
        (R.remaining source.old) (R.remaining source.new) (W.contents to.old) (W.contents to.new)) }
{
    let length = read_full(source, file);
    // Kept: a buffer of a fixed length, as in the programs, since a file that is run needs no heap.
    let mut sheet = [0u8; ROOM];
    let len = sheet_of(&file[0..length], &mut sheet);
    to.write_all(&sheet[0..len])
}

// Says on standard error, under the program's name, that standard output failed, where it did.
pub fn report(rt: &impl Eprint, program: &str, written: io::Result<()>) -> io::Result<()>
    ensures { OnOk written (IsOk result) }
{
    if let Err(error) = written {
        eprintln!(rt; "{program}: standard output: {error}")?;
    }
    Ok(())
}

// Runs the file of each argument: `run` is given its name and its bytes, as far as the lent buffer goes, and writes to
// standard output. No contract can say what arguments there are, and so which calls are made: it promises that after an
// error the buffer is as it was lent, or `run`, called again and again, may answer with one.
pub fn run_files<F: FnMut(&[u8], &[u8]) -> io::Result<()>>(
    rt: &(impl Alloc + Env + Files + Eprint),
    program: &str,
    file: &mut [u8],
    mut run: F,
) -> io::Result<()>
    requires { F.IsAlwaysCallable run }
    ensures { OnErr result ((file.new ≡ file.old) ⊎ ComesToFail (OfFile (length file.old) F.step) run) }
{
    // Kept: a buffer of a fixed length, as in the programs, since a file that is run needs no heap.
    let mut name = [0u8; 4096];
    for i in 1..env::args(rt)?.len() {
        let Some(given) = read_argument(rt, i, &mut name, file) else {
            continue;
        };
        let written = run(&name[0..given.named], &file[0..given.length]);
        report(rt, program, written)?;
    }
    Ok(())
}

// Runs the two files of each pair of arguments: `run` is given both names with a space between them, and the bytes of
// both.
pub fn run_pairs<F: FnMut(&[u8], &[u8], &[u8]) -> io::Result<()>>(
    rt: &(impl Alloc + Env + Files + Eprint),
    program: &str,
    first: &mut [u8],
    second: &mut [u8],
    mut run: F,
) -> io::Result<()>
    requires { F.IsAlwaysCallable run }
    ensures { OnErr result (((first.new ≡ first.old) × (second.new ≡ second.old))
        ⊎ ComesToFail (OfPair (length first.old) (length second.old) F.step) run) }
{
    let mut one = [0u8; 4096];
    let mut two = [0u8; 4096];
    let mut names = [0u8; 8193];
    for i in (1..env::args(rt)?.len()).step_by(2) {
        let Some((a, b)) = read_pair(rt, i, &mut one, first, &mut two, second) else {
            continue;
        };
        let both = join(&mut names, &one[0..a.named], &two[0..b.named]).unwrap_or(0);
        let written = run(&names[0..both], &first[0..a.length], &second[0..b.length]);
        report(rt, program, written)?;
    }
    Ok(())
}
