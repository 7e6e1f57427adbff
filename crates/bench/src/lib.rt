// The bench: a schedule file is checked and run, and its journal is filled.
#![tactic(auto)]

ghost use Rattle.std.specs.Prelude.{◌≡◌, ◌+◌, ◌≤◌, min, length, take, drop, IfOk, IsOkUnless};
ghost use Rattle.lock.specs.File.{refusal};
ghost use Rattle.pair.specs.File.{tail_of};
ghost use Rattle.lock.specs.declared.Refusal.TheVariants.{SheetTooSmall};
ghost use Rattle.text.specs.Asked.{length_of, Asked};
ghost use Rattle.text.specs.Page.{Adds};
ghost use Rattle.journal.specs.Runner.{Runnable};
ghost use Rattle.turn.specs.Turn.{Begins};
ghost use Rattle.bench.specs.Runner.{Runs};
ghost use Rattle.bench.specs.Bench.{BenchesWith, Benches, WithTail};
ghost use Rattle.bench.specs.Failures.{side_if, FailuresOf};
ghost use Rattle.bench.specs.Sheeted.{sheet_left, Sheeted};

use cells::failures_of;
use file::{Answer, check_both, is_stateless, rows_of, sizes_of};
use journal::enter;
use lock::{Ran, Refusal, Sizes, answer_number};
use report::{Outcome, put_sheet};
use text::{Page, check_room};
use turn::{fresh_locks, row};

// The two locks, by the name under which whoever stands above the bench lends them.
pub type Locks = turn::Locks;

// ---- the run

// Runs the rows on the two locks, which are fresh: each is read, made, and entered. Their thread numbers and then their
// orders are the bytes. It is the only loop over a schedule's rows, so that the compiler puts the row into it
// (docs/DECISIONS.md, 83); the next row's thread is read before this row is made, so that the processor has it at hand.
fn run_rows(z: Sizes, rows: usize, bytes: &[u8], journal: &mut [u8], locks: &mut Locks) -> Ran
    requires { Runnable z (take rows bytes.now) (drop rows bytes.now) journal.old
        × (length bytes.now ≡ rows + rows) × (Begins locks.old) }
    ensures { Runs z (take rows bytes.now)
        (drop rows bytes.now) journal.old journal.new locks.new result }
{
    let mut next = bytes.first().copied().unwrap_or(0);
    for i in 0..rows {
        let t = usize::from(next);
        let order = bytes[rows + i];
        next = bytes[i + 1];
        match &row(z, locks, t, order) {
            Ok(entry) => enter(journal, rows, i, entry),
            Err(refusal) => return Ran::after(Err(*refusal), i, z),
        }
    }
    Ran::after(Ok(()), rows, z)
}

// Runs a schedule file on two locks, which are fresh if it is not refused, and fills its journal. Of the items more than
// 32 are taken for 32.
fn run_fresh(file: &[u8], items: usize, journal: &mut [u8], locks: &mut Locks) -> Ran
    requires { refusal file.now (length journal.old) ≡ 0 → Begins locks.old }
    ensures { BenchesWith (min items 32)
        file.now journal.old journal.new locks.old locks.new result }
{
    let sizes = Sizes {
        items: items.min(32),
        ..sizes_of(file)
    };
    if let Err(refusal) = check_both(file, journal.len()) {
        return Ran::refused(refusal, sizes);
    }
    run_rows(sizes, rows_of(file), &file[5..], journal, locks)
}

// Runs a schedule file on the caller's two locks, which it makes fresh, and fills its journal. Whoever stands above the
// bench and keeps a till says how many items that has, of which more than 32 are taken for 32: rows that book them are
// then taken (document 02, Twelve). It asks nothing of the file, the journal or the locks; after refusals 1 to 4 the
// locks are as they were.
pub fn run_with(file: &[u8], items: usize, journal: &mut [u8], locks: &mut Locks) -> Ran
    ensures { BenchesWith (min items 32)
        file.now journal.old journal.new locks.old locks.new result }
{
    if check_both(file, journal.len()).is_ok() {
        *locks = fresh_locks();
    }
    run_fresh(file, items, journal, locks)
}

// The same without a till.
pub fn run_file(file: &[u8], journal: &mut [u8], locks: &mut Locks) -> Ran
    ensures { Benches file.now
        journal.old journal.new locks.old locks.new result }
{
    run_with(file, 0, journal, locks)
}

// The rows that a run with this answer and this number of rows taken left, as a part of the file's thread numbers: none
// after refusals 1 to 4.
pub fn rows_left<'a, A: Answer>(file: &'a [u8], answer: A, taken: usize) -> &'a [u8]
    ensures { result.now ≡ tail_of file.now (A.number answer) taken }
{
    let end = (5 + rows_of(file)).min(file.len());
    if is_stateless(answer) {
        return &file[end..end];
    }
    let start = (5 + taken.min(end)).min(end);
    &file[start..end]
}

// The runner: runs a schedule file on the caller's two locks, fills its journal, and hands back the rows not run as a
// part of the file, with the answer's number and the number of rows taken.
//
// Kept: both numbers behind references, since docs/DECISIONS.md, 23 names the function so, and `WithTail` its promise.
pub fn run<'a>(
    file: &'a [u8],
    journal: &mut [u8],
    locks: &mut Locks,
    answer: &mut u8,
    taken: &mut usize,
) -> &'a [u8]
    ensures { WithTail file.now journal.old journal.new
        locks.old locks.new result.now answer.new taken.new }
{
    let ran = run_file(file, journal, locks);
    *answer = answer_number(ran.answer);
    *taken = ran.taken;
    rows_left(file, ran.answer, ran.taken)
}

// The number of thread t's failures at the first lock, or at the second, of a run that left the two locks so: the
// thread's entries of kind 3 at that lock. The sheet's line of the thread prints it by the same function.
pub fn failures(locks: &Locks, second: bool, t: usize) -> u64
    ensures { FailuresOf (side_if second) t locks.now result }
{
    if second {
        return failures_of(&locks[1], t);
    }
    failures_of(&locks[0], t)
}

// ---- the sheet

// The sheet of a run that left the two locks so. It has at most 6,476 bytes, so that whoever stands above the bench can
// write more behind it.
pub fn sheet_of_run<O: Outcome>(page: &mut Page, ran: O, locks: &Locks)
    requires { page.old.at + 6476 ≤ length page.old.buf.now }
    ensures { Adds page.old (sheet_left (O.numbers ran) locks.now) page.new × (page.new.at ≤ page.old.at + 6476) }
{
    put_sheet(page, ran, &locks[0], &locks[1]);
}

// The same at the front of a buffer, which may be too small. Gives the sheet's length.
pub fn write_both<O: Outcome>(buffer: &mut [u8], ran: O, locks: &Locks) -> Result<usize, Refusal>
    ensures asked { Asked (sheet_left (O.numbers ran) locks.now) buffer.old buffer.new (length_of result) }
    ensures refused { IsOkUnless result SheetTooSmall }
    ensures roomy { IfOk result (λ len. 8192 ≤ length buffer.old) }
{
    check_room(buffer.len())?;
    let mut page = Page::new(buffer);
    sheet_of_run(&mut page, ran, locks);
    Ok(page.at)
}

// Runs a schedule file, fills its journal, and writes its sheet into the buffer. Gives the sheet's length; a buffer below
// 8,192 bytes is refused, and nothing is written into it; the run and its journal stand all the same.
pub fn sheet_file(file: &[u8], journal: &mut [u8], sheet: &mut [u8]) -> Result<usize, Refusal>
    ensures sheeted { Sheeted file.now journal.old journal.new sheet.old sheet.new (length_of result) }
    ensures refused { IsOkUnless result SheetTooSmall }
    ensures roomy { IfOk result (λ len. 8192 ≤ length sheet.old) }
{
    let mut locks: Locks = fresh_locks();
    let ran = run_fresh(file, 0, journal, &mut locks);
    write_both(sheet, ran, &locks)
}
