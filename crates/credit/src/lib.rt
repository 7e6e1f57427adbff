// The bench with a till (document 02, request Twelve), above the bench: a schedule file and a till file are checked,
// the bench runs the schedule, of the till knowing the number of items alone, and then its journal is settled with the
// till. The sheet ends with the rooms. Of the bench it uses the contracts of `run_with`, `rows_left`, `sheet_of_run`
// and `sheet_file`, and of the crates below it nothing but their vocabulary.
#![tactic(auto)]

ghost use Rattle.std.specs.Prelude.{◌+◌, ◌≡◌, ◌≤◌, length, is_some, IfOk, IsOkUnless};
ghost use Rattle.lock.specs.Refusal.{answer_number};
ghost use Rattle.lock.specs.declared.Refusal.TheVariants.{SheetTooSmall};
ghost use Rattle.text.specs.Page.{Adds};
ghost use Rattle.text.specs.Asked.{length_of};
ghost use Rattle.till.specs.Till.{till_of};
ghost use Rattle.credit_model.specs.File.{credit_refusal};
ghost use Rattle.credit.specs.Runner.{Printable, sheet_of_run, Credits, WithTail};
ghost use Rattle.credit.specs.Sheeted.{Sheeted, SheetedIf, bytes_of};

use bench::{Locks, rows_left, run_with, sheet_of_run};
use file::{check_file, check_journal, is_stateless, rows_of, sizes_of};
use lock::{Ran, Refusal, answer_number};
use settling::settle;
use text::{Page, check_room};
use till::{Ledger, check_till, items_of, put_rooms};

// ---- the run

// Refusals 1 to 3 of the schedule file, 10 of the till file, and 4 of the journal's length: the first that applies.
fn check_both_files(file: &[u8], till: &[u8], journal: usize) -> Result<(), Refusal>
    ensures { answer_number result ≡ credit_refusal file.now till.now journal }
{
    check_file(file)?;
    check_till(till)?;
    check_journal(file, journal)
}

// Runs a schedule file with a till file on the caller's two locks, which it makes fresh, and on the caller's table,
// which it empties, and fills the journal. It asks nothing of the files, the journal, the locks or the table; after
// refusals 1 to 4 and 10 the locks and the table are as they were.
pub fn run_file(
    file: &[u8],
    till: &[u8],
    journal: &mut [u8],
    locks: &mut Locks,
    ledger: &mut Ledger,
) -> Ran
    ensures { Credits file.now till.now journal.old
        journal.new locks.old ledger.old locks.new ledger.new result }
{
    let sizes = sizes_of(file);
    if let Err(refusal) = check_both_files(file, till, journal.len()) {
        return Ran::refused(refusal, sizes);
    }
    let ran = run_with(file, items_of(till), journal, locks);
    let orders = 5 + rows_of(file);
    settle(till, &file[orders..], ran.taken, journal, ledger);
    Ran { sizes, ..ran }
}

// The runner: runs a schedule file with a till file, as `run_file` does, and hands back the rows not run as a part of
// the schedule file, with the answer's number and the number of rows taken.
//
// Kept: both numbers behind references, as those of `bench::run`, of which docs/PROVED.md names the promise `WithTail`.
pub fn run<'a>(
    file: &'a [u8],
    till: &[u8],
    journal: &mut [u8],
    locks: &mut Locks,
    ledger: &mut Ledger,
    answer: &mut u8,
    taken: &mut usize,
) -> &'a [u8]
    ensures { WithTail file.now
        till.now journal.old journal.new locks.old ledger.old
        locks.new ledger.new result.now answer.new taken.new }
{
    let ran = run_file(file, till, journal, locks, ledger);
    *answer = answer_number(ran.answer);
    *taken = ran.taken;
    rows_left(file, ran.answer, ran.taken)
}

// ---- the sheet

// The sheet of a run that left the two locks and the table so, on a page that has room for every sheet: the bench's, and
// behind it the rooms.
fn put_credit_sheet(page: &mut Page, ran: Ran, locks: &Locks, till: &[u8], ledger: &Ledger)
    requires { (page.old.at + 8192 ≤ length page.old.buf.now) × (Printable (answer_number ran.answer) till.now ledger.now) }
    ensures { Adds page.old (sheet_of_run ran (till_of till.now) locks.now ledger.now) page.new }
{
    if is_stateless(ran.answer) {
        page.put_answer(ran.answer, ran.taken);
    } else {
        sheet_of_run(page, ran, locks);
        put_rooms(page, till, ledger);
    }
}

// Runs a schedule file with a till file, fills its journal, and writes its sheet into the buffer. Gives the sheet's
// length. A buffer below 8,192 bytes is refused, and nothing is written into it; the run and its journal stand all the
// same.
pub fn sheet_file(
    file: &[u8],
    till: &[u8],
    journal: &mut [u8],
    sheet: &mut [u8],
) -> Result<usize, Refusal>
    ensures sheeted { Sheeted file.now
        till.now journal.old journal.new sheet.old sheet.new (length_of result) }
    ensures refused { IsOkUnless result SheetTooSmall }
    ensures roomy { IfOk result (λ len. 8192 ≤ length sheet.old) }
{
    let mut locks: Locks = [[0; 512]; 2];
    let mut ledger: Ledger = [0; 64];
    let ran = run_file(file, till, journal, &mut locks, &mut ledger);
    check_room(sheet.len())?;
    let mut page = Page::new(sheet);
    put_credit_sheet(&mut page, ran, &locks, till, &ledger);
    Ok(page.at)
}

// The same with the till file, if there is one; where there is none, it is the bench.
pub fn sheet_if(
    file: &[u8],
    till: Option<&[u8]>,
    journal: &mut [u8],
    sheet: &mut [u8],
) -> Result<usize, Refusal>
    ensures sheeted { SheetedIf (is_some till.entry) file.now
        (bytes_of till.entry) journal.old journal.new sheet.old sheet.new (length_of result) }
    ensures refused { IsOkUnless result SheetTooSmall }
    ensures roomy { IfOk result (λ len. 8192 ≤ length sheet.old) }
{
    match till {
        Some(till) => sheet_file(file, till, journal, sheet),
        None => bench::sheet_file(file, journal, sheet),
    }
}
