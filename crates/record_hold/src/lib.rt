// A record of a server's run is held to the bench: the same row in the same loop, and after each row its entry and its
// word's value are compared with the record's.
#![tactic(auto)]

ghost use Rattle.std.specs.Prelude.{◌≡◌, ◌≢◌, ◌+◌, ◌*◌, ◌/◌, ◌≤◌, ◌<◌, length, get_or};
ghost use Rattle.lock.specs.Bound.{most_steps, steps_before};
ghost use Rattle.lock.specs.Refusal.{answer_number};
ghost use Rattle.lock.specs.State.{word_at};
ghost use Rattle.cells.specs.View.{state_of};
ghost use Rattle.turn.specs.Turn.{Place, pair_in};
ghost use Rattle.record_model.specs.Record.{NONE, number_of, value_in, four_at, head_refusal, length_refusal};
ghost use Rattle.record_model.specs.Record.{record_refusal, told_only};
ghost use Rattle.record_model.specs.Told.{value_number, told_of};
ghost use Rattle.record_hold.specs.Holds.{Compares, HoldsRow, Holds, HoldsPiece, HoldsRecord, StandsSomewhere, Begins};
ghost use Rattle.record_hold.specs.Holds.{HoldsMore};

use cells::{Lock, tree_of};
use file::{sizes_fit, sizes_of};
use lock::{Entry, Refusal, Sizes};
use record_model::{Effect, NotHeld, Reason};
use turn::fresh_locks;

// The two locks, by the name under which whoever stands above lends them.
pub type Locks = turn::Locks;

// No value is recorded.
//
// Kept: a number for none, here alone, where the file is read: it is the format's, and the definitions' `NONE`.
const NO_VALUE: u32 = 4294967295;

// The most rows of a record: the definitions' `most_steps`.
const MOST_ROWS: usize = 4294967294;

// ---- a row

// What a row did by the record: its kind, its word, and the word's value in four bytes, low byte first.
fn recorded(row: &[u8; 8]) -> Effect
    ensures entry { result.entry ≡ record { kind = get_or row.now 2 0; word = get_or row.now 3 0 } }
    ensures value { value_number result.value ≡ four_at row.now 4 }
    ensures recorded { result.value ≢ Some NONE }
{
    let value = u32::from_le_bytes([row[4], row[5], row[6], row[7]]);
    Effect {
        entry: Entry {
            kind: row[2],
            word: row[3],
        },
        value: if value == NO_VALUE {
            None
        } else {
            Some(value as u64)
        },
    }
}

// Word w of one lock as a record has it: the root as it is packed there, of a node its count.
fn number_in(l: &Lock, w: usize) -> u64
    requires { w < 32 }
    ensures { result ≡ number_of w (word_at (state_of l.now) w) }
{
    let v = l[w];
    if w == 0 { v } else { tree_of(v) }
}

// The value of a word, by its number in the journal.
fn value_in(locks: &Locks, word: u8) -> Option<u64>
    ensures { value_number result ≡ value_in (pair_in locks.now) word }
{
    let word = word as usize;
    match word {
        0..=31 => Some(number_in(&locks[0], word)),
        64..=95 => Some(number_in(&locks[1], word - 64)),
        _ => None,
    }
}

// What the record has of a row against what the bench's row did.
//
// Kept: an entry compared by its fields. must-fail/kind_taken_for_word mistakes one of them for the other.
fn compare(recorded: Effect, made: Effect) -> Result<(), Reason>
    requires { recorded.value ≢ Some NONE }
    ensures { Compares recorded made result }
{
    if recorded.entry.kind != made.entry.kind || recorded.entry.word != made.entry.word {
        return Err(Reason::EntryDiffers(made));
    }
    match (recorded.value, made.value) {
        (None, _) => Ok(()),
        (Some(value), Some(own)) if value == own => Ok(()),
        _ => Err(Reason::ValueDiffers(made)),
    }
}

// Makes a row of the record on the locks, and compares what it did. A row that differs has been made.
fn hold_row(z: Sizes, row: &[u8; 8], locks: &mut Locks) -> Result<(), Reason>
    requires { Place z locks.old steps_before }
    ensures { HoldsRow z row.now locks.old locks.new result }
{
    let entry = turn::row(z, locks, row[0] as usize, row[1])?;
    let made = Effect {
        entry: entry,
        value: value_in(locks, entry.word),
    };
    compare(recorded(row), made)
}

// ---- the rows of a piece
//
// Kept: the sizes, the rows before and the locks apart. A struct of them would borrow the locks, and its ghost field,
// that so many rows led to them, would be false between `turn::row`, which takes sizes and locks, and the count of that
// row. `hold_more`, which docs/SPECIFICATION.md names, takes them too.

// Holds the rows of a piece on two locks to which `before` rows have led: it is the only loop over a record's rows. The
// row changes the locks in place, so at a difference they are those after it.
fn hold_rows(z: Sizes, before: usize, piece: &[u8], locks: &mut Locks) -> Result<usize, NotHeld>
    requires { (Place z locks.old before) × (before + length piece.now / 8 ≤ most_steps) }
    ensures { Holds z piece.now (length piece.now / 8) before locks.old locks.new (told_of result) }
{
    let (rows, _) = piece.as_chunks::<8>();
    for (i, row) in rows.iter().enumerate() {
        if let Err(reason) = hold_row(z, row, locks) {
            return Err(NotHeld {
                held: i,
                reason: reason,
            });
        }
    }
    Ok(rows.len())
}

// The same, and at a difference the locks are left as they were before that row: the rows of the piece before it are
// made again, from a copy of the locks.
fn hold_piece(z: Sizes, before: usize, piece: &[u8], locks: &mut Locks) -> Result<usize, NotHeld>
    requires { (Place z locks.old before) × (before + length piece.now / 8 ≤ most_steps) }
    ensures { HoldsPiece z piece.now (length piece.now / 8) before locks.old locks.new (told_of result) }
{
    let saved = *locks;
    let told = hold_rows(z, before, piece, locks);
    if let Err(not_held) = told {
        let differs = not_held.reason.differs();
        if differs {
            *locks = saved;
            let _ = hold_rows(z, before, &piece[..8 * not_held.held], locks);
        }
    }
    told
}

// ---- refusals 1 to 3

// Refusals 1 and 2, by the first three bytes.
fn check_head(file: &[u8]) -> Result<(), Refusal>
    ensures { answer_number result ≡ head_refusal file.now }
{
    if file.len() < 3 {
        return Err(Refusal::TooShort);
    }
    if !sizes_fit(sizes_of(file)) {
        return Err(Refusal::SizeOutOfRange);
    }
    Ok(())
}

// Refusal 3, of n bytes behind `before` rows.
fn check_length(before: usize, n: usize) -> Result<(), Refusal>
    requires { before ≤ most_steps }
    ensures { answer_number result ≡ length_refusal (8 * before + n) }
{
    if n % 8 != 0 || MOST_ROWS - before < n / 8 {
        return Err(Refusal::WrongLength);
    }
    Ok(())
}

// The first of refusals 1 to 3 that applies to a record.
fn check_record(file: &[u8]) -> Result<(), Refusal>
    ensures { answer_number result ≡ record_refusal file.now }
{
    check_head(file)?;
    check_length(0, file.len() - 3)
}

// ---- a record in pieces, as a stream brings it

// Reads the first three bytes of a record and makes the caller's two locks fresh, where they do not refuse it.
pub fn begin(file: &[u8], locks: &mut Locks) -> Result<(), Refusal>
    ensures { Begins file.now locks.old locks.new (told_only (answer_number result)) }
{
    check_head(file)?;
    *locks = fresh_locks();
    Ok(())
}

// Holds the next piece of a record of which `before` rows are held, on the locks to which they led. What it tells is
// told of all bytes so far, so one that ends inside a row is refused with 3. Where it tells of rows held the next piece
// can come.
pub fn hold_more(z: Sizes, before: usize, piece: &[u8], locks: &mut Locks) -> Result<usize, NotHeld>
    requires { StandsSomewhere z before locks.old }
    ensures { HoldsMore z before piece.now locks.old locks.new (told_of result) }
{
    check_length(before, piece.len())?;
    match hold_piece(z, before, piece, locks) {
        Ok(held) => Ok(before + held),
        Err(not_held) => Err(NotHeld {
            held: before + not_held.held,
            ..not_held
        }),
    }
}

// ---- a whole record

// Holds a record on the caller's two locks, which it makes fresh, and leaves them as they were before the row that
// ended it. It asks nothing of the record or the locks.
pub fn hold(file: &[u8], locks: &mut Locks) -> Result<usize, NotHeld>
    ensures { HoldsRecord file.now locks.old locks.new (told_of result) }
{
    check_record(file)?;
    begin(file, locks)?;
    hold_more(sizes_of(file), 0, &file[3..], locks)
}
