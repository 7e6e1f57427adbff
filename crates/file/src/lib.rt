// The schedule file: its sizes, its number of rows, the first of refusals 1 to 4 that applies to it, and which refusals
// leave no state. Every engine that reads such a file asks here; what reads a byte, tests a range or refuses with 1 to 3
// serves the ticket file too.
#![tactic(auto)]

ghost use Rattle.std.specs.Prelude.{◌≡◌, ℕ, ◌&&◌, ◌+◌, ◌*◌, ◌<◌, leb, get_or};
ghost use Rattle.lock.specs.File.{sizes_of, row_count, within, sizes_fit, shape_refusal, file_refusal, journal_refusal};
ghost use Rattle.lock.specs.File.{refusal, stateless};
ghost use Rattle.lock.specs.Refusal.{answer_number};

use lock::{Refusal, Sizes, answer_number};

// The byte at a place of a file, 0 where the file ends before it.
pub fn byte_at(file: &[u8], at: usize) -> usize
    ensures { (result ≡ get_or file.now at 0) × (result < 256) }
{
    usize::from(file.get(at).copied().unwrap_or(0))
}

// The number in two bytes of a file, its low byte and its high byte.
pub fn two_bytes(file: &[u8], low: usize, high: usize) -> usize
    ensures { (result ≡ get_or file.now low 0 + 256 * get_or file.now high 0) × (result < 65536) }
{
    byte_at(file, low) + 256 * byte_at(file, high)
}

pub fn sizes_of(file: &[u8]) -> Sizes
    ensures { result ≡ sizes_of file.now }
{
    Sizes {
        nodes: byte_at(file, 0),
        fan: byte_at(file, 1),
        threads: byte_at(file, 2),
        items: 0,
    }
}

// The number of rows that a file says it has.
pub fn rows_of(file: &[u8]) -> usize
    ensures { (result ≡ row_count file.now) × (result < 65536) }
{
    two_bytes(file, 3, 4)
}

pub fn is_within(least: usize, most: usize, n: usize) -> bool
    ensures { result ≡ within least most n }
{
    least <= n && n <= most
}

// Whether N, F and T are in their ranges.
pub fn sizes_fit(z: Sizes) -> bool
    ensures { result ≡ sizes_fit z }
{
    is_within(1, 32, z.nodes) && is_within(1, 16, z.fan) && is_within(1, 64, z.threads)
}

// Whether the sizes of a file with a number of rows in two bytes are all in their ranges.
pub fn all_fit(z: Sizes, rows: usize) -> bool
    ensures { result ≡ (sizes_fit z && leb rows 4096) }
{
    sizes_fit(z) && rows <= 4096
}

// Refusals 1 to 3, of a file of `len` bytes and `rows` rows, whose sizes are in range or not: the first that applies.
pub fn check_shape(len: usize, fits: bool, rows: usize) -> Result<(), Refusal>
    requires { rows < 65536 }
    ensures { answer_number result ≡ shape_refusal len fits rows }
{
    if len < 5 {
        return Err(Refusal::TooShort);
    }
    if !fits {
        return Err(Refusal::SizeOutOfRange);
    }
    if len != 5 + 2 * rows {
        return Err(Refusal::WrongLength);
    }
    Ok(())
}

// Refusals 1 to 3, of a schedule file alone.
pub fn check_file(file: &[u8]) -> Result<(), Refusal>
    ensures { answer_number result ≡ file_refusal file.now }
{
    let rows = rows_of(file);
    let fits = all_fit(sizes_of(file), rows);
    check_shape(file.len(), fits, rows)
}

// Refusal 4, of a journal that has not two bytes a row of the file.
pub fn check_journal(file: &[u8], journal: usize) -> Result<(), Refusal>
    ensures { answer_number result ≡ journal_refusal file.now journal }
{
    let rows = rows_of(file);
    if journal < 2 * rows {
        return Err(Refusal::JournalTooSmall);
    }
    Ok(())
}

// Refusals 1 to 4, of a file and a journal's length: the first that applies.
pub fn check_both(file: &[u8], journal: usize) -> Result<(), Refusal>
    ensures { answer_number result ≡ refusal file.now journal }
{
    check_file(file)?;
    check_journal(file, journal)
}

// ---- answers

// An answer: as a run has it, or as its number alone, which may be one that no refusal has.
pub trait Answer: Copy {
    ghost number: { Self → ℕ };

    fn number(self) -> u8
        ensures { result ≡ number self };
}

impl Answer for Result<(), Refusal> {
    ghost number = { answer_number };

    fn number(self) -> u8 {
        answer_number(self)
    }
}

impl Answer for u8 {
    ghost number = { λ n. n };

    fn number(self) -> u8 {
        self
    }
}

// Does a run with this answer leave no state? It has one where all rows were taken, or a row was refused.
pub fn is_stateless<A: Answer>(answer: A) -> bool
    ensures { result ≡ stateless (A.number answer) }
{
    let number = answer.number();
    !(number == 0 || is_within(5, 7, usize::from(number)))
}
