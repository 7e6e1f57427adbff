// The dispatcher in place: each row of its file is a call that a thread wants, and it chooses whose step is next (crate
// `dispatch_step`). The calls of each thread are linked through the file's rows, so that nothing per step grows with
// the rows left. A step is a row of the bench's two locks (`turn::row`), of which the second stays fresh.
#![tactic(auto)]

ghost use Rattle.std.specs.Prelude.{◌≡◌, ℕ, ◌≤◌, ◌<◌, ◌^◌, length, get_or, IfOk, IsOkUnless, ⊤};
ghost use Rattle.lock.specs.File.{paired};
ghost use Rattle.lock.specs.Refusal.{answer_number};
ghost use Rattle.lock.specs.declared.Refusal.TheVariants.{SheetTooSmall};
ghost use Rattle.text.specs.Asked.{length_of};
ghost use Rattle.turn.specs.Turn.{Begins};
ghost use Rattle.dispatch_model.specs.Dispatch.{Chooser, round, dispatch};
ghost use Rattle.dispatch_model.proofs.Order.{Lawful, round-lawful};
ghost use Rattle.dispatcher.specs.Choosing.{Chooses, way_by};
ghost use Rattle.dispatch_model.specs.File.{first_refusal};
ghost use Rattle.dispatch_model.specs.Code.{Linked, Marked};
ghost use Rattle.dispatcher.specs.Store.{Storable, stored};
ghost use Rattle.dispatcher.specs.Rows.{Dispatchable, Dispatches};
ghost use Rattle.dispatcher.specs.Answer.{Opens, AnswersBy, SheetedBy, Answers, Sheeted};

use bench::write_both;
use dispatch_step::{Calls, Sets, after_turn, next_step, only_if, pick_from, replace};
use file::{check_file, rows_of, sizes_of};
use lock::{Ran, Refusal, Sizes};
use orders::check_row;
use queue::bit;
use text::{Page, check_room};
use turn::{Locks, fresh_locks};

// ---- the checks of all rows, before the first step

// Refusals 5 and 6 of all rows: the first row that is refused.
pub fn check_rows(z: Sizes, threads: &[u8], orders: &[u8]) -> Result<(), Refusal>
    requires { length orders.now ≡ length threads.now }
    ensures { answer_number result ≡ first_refusal z (paired threads.now orders.now) }
{
    for (thread, order) in threads.iter().zip(orders) {
        check_row(z, usize::from(*thread), *order)?;
    }
    Ok(())
}

// ---- the calls of each thread

// Links the rows of each thread, from the last row to the first: its first row, and behind each row its next.
// Kept: lists in two arrays, with the number of rows as their end, since `Linked` says them so, and there is no heap.
pub fn link_rows(threads: &[u8], heads: &mut [u16; 64], later: &mut [u16; 4096])
    requires { (length heads.old ≡ 64) × (length later.old ≡ 4096)
        × (length threads.now ≤ 4096) × ((i : ℕ) → i < length threads.now → get_or threads.now i 0 < 64) }
    ensures { Linked threads.now heads.new later.new 0 }
{
    *heads = [threads.len() as u16; 64];
    for i in (0..threads.len()).rev() {
        let who = usize::from(threads[i]);
        let next = heads[who];
        later[i] = next;
        heads[who] = i as u16;
    }
}

// The threads below `threads` that want a call: whose head is a row.
pub fn who_wants(heads: [u16; 64], threads: usize, rows: usize) -> u64
    requires { threads ≤ 64 }
    ensures { Marked threads result heads rows }
{
    let mut set: u64 = 0;
    for t in 0..threads {
        let own = only_if(t, usize::from(heads[t]) < rows);
        set = replace(set, bit(t), own);
    }
    set
}

// ---- whose turn it is

// Who gets the next step: a chooser of the definitions (`dispatch_model` specs/Dispatch `Chooser`).
pub trait Choice {
    // What it keeps, and when that is right, of so many threads.
    ghost Kept: { Type 0 };

    ghost kept: { Self → Kept };

    ghost right: { ℕ → Kept → Type 0 };

    ghost chooser: { ℕ → Chooser Kept };

    ghost lawful: { (T : ℕ) → Lawful T (chooser T) (right T) };

    // The thread that gets the next step, of so many, of which these are able to move; none where no turn comes.
    fn next(&mut self, threads: usize, able: u64) -> Option<usize>
        requires { (threads ≤ 64) × (able < 2 ^ threads) × right threads (kept self.old) }
        ensures { Chooses (chooser threads) threads able (kept self.old) (kept self.new) result };
}

// Going round the threads by number, from this one on.
#[derive(Drop)]
pub struct GoingRound {
    pub turn: usize,
}

impl Choice for GoingRound {
    ghost Kept = { ℕ };

    ghost kept = { λ r. r.turn };

    ghost right = { λ T t. t < T };

    ghost chooser = { round };

    ghost lawful = { round-lawful };

    fn next(&mut self, threads: usize, able: u64) -> Option<usize> {
        if able == 0 {
            return None;
        }
        let t = pick_from(able, self.turn);
        self.turn = after_turn(threads, t);
        Some(t)
    }
}

// ---- the steps

// Gives steps on the two locks, which are fresh, to those whose turn it is; each step given is written to two arrays of
// 4,096 bytes.
// Kept: the two arrays are one buffer, since `Dispatches` has it in a journal's form (`journal_bytes`).
fn dispatch_rows<C: Choice>(
    z: Sizes,
    threads: &[u8],
    orders: &[u8],
    choice: &mut C,
    given: &mut [u8],
    locks: &mut Locks,
) -> Ran
    requires { (Dispatchable z threads.now orders.now given.old) × (Begins locks.old)
        × C.right z.threads (C.kept choice.old) }
    ensures { Dispatches (way_by C.chooser (C.kept choice.old) z (paired threads.now orders.now)) z
        given.old given.new locks.new result }
{
    let mut heads: [u16; 64] = [0; 64];
    let mut later: [u16; 4096] = [0; 4096];
    link_rows(threads, &mut heads, &mut later);
    let calls = Calls {
        orders,
        later: &later,
    };
    let mut sets = Sets::begun(who_wants(heads, z.threads, threads.len()));
    for i in 0..4096 {
        let Some(t) = choice.next(z.threads, sets.able) else {
            return Ran::after(Ok(()), i, z);
        };
        match next_step(z, &calls, &mut heads, locks, t, sets) {
            Err(refusal) => return Ran::after(Err(refusal), i, z),
            Ok(step) => {
                given[i] = t as u8;
                given[4096 + i] = step.order;
                sets = step.sets;
            }
        }
    }
    Ran::after(Ok(()), 4096, z)
}

// ---- the schedule that comes back

// Writes n steps, from two arrays of 4,096 bytes, as a schedule file.
pub fn store_schedule(buffer: &mut [u8], z: Sizes, given: &[u8], n: usize)
    requires { Storable z n given.now buffer.old }
    ensures { buffer.new ≡ stored z n given.now buffer.old }
{
    buffer[0] = z.nodes as u8;
    buffer[1] = z.fan as u8;
    buffer[2] = z.threads as u8;
    buffer[3] = (n % 256) as u8;
    buffer[4] = (n / 256) as u8;
    let end = 4096 + n;
    let mut page = Page { buf: buffer, at: 5 };
    page.put_text(&given[..n]);
    page.put_text(&given[4096..end]);
}

// ---- the file

// Checks a file of wanted calls, all that is checked before the first step, and makes the caller's two locks fresh.
// `page` is the length of the sheet's buffer. It asks nothing of the file, the buffer or the locks: after 1 to 4 and 9
// both are as they were, after 5 and 6 the buffer has a schedule of no steps.
pub fn opens(
    file: &[u8],
    schedule: &mut [u8],
    page: usize,
    locks: &mut Locks,
) -> Result<(), Refusal>
    ensures { Opens file.now schedule.old schedule.new page
        locks.old locks.new (answer_number result) }
{
    check_file(file)?;
    if schedule.len() < 8197 {
        return Err(Refusal::JournalTooSmall);
    }
    check_room(page)?;
    let z = sizes_of(file);
    let orders = 5 + rows_of(file);
    *locks = fresh_locks();
    if let Err(refusal) = check_rows(z, &file[5..orders], &file[orders..]) {
        let none: [u8; 8192] = [0; 8192];
        store_schedule(schedule, z, &none, 0);
        return Err(refusal);
    }
    Ok(())
}

// Checks a file of wanted calls, gives steps to those whose turn it is on the caller's two locks, which it makes fresh,
// and writes them as a schedule into the lent buffer. No call is for the second lock, and it stays fresh. `page` is the
// length of the sheet's buffer. It asks nothing of the file, the buffer or the locks; after 1 to 4 and 9 both are as
// they were.
pub fn give_file<C: Choice>(
    file: &[u8],
    choice: &mut C,
    schedule: &mut [u8],
    page: usize,
    locks: &mut Locks,
) -> Ran
    requires { (T : ℕ) → 0 < T → C.right T (C.kept choice.old) }
    ensures { AnswersBy (way_by C.chooser (C.kept choice.old)) ⊤ file.now
        schedule.old schedule.new page locks.old locks.new result }
{
    let z = sizes_of(file);
    if let Err(refusal) = opens(file, schedule, page, locks) {
        return Ran::refused(refusal, z);
    }
    let orders = 5 + rows_of(file);
    let mut given: [u8; 8192] = [0; 8192];
    let ran = dispatch_rows(
        z,
        &file[5..orders],
        &file[orders..],
        choice,
        &mut given,
        locks,
    );
    store_schedule(schedule, z, &given, ran.taken);
    ran
}

// The same with fresh locks of its own, whose sheet is written into the lent buffer. Gives the sheet's length. A buffer
// below 8,192 bytes is refused, and nothing is written into it.
pub fn give_sheet<C: Choice>(
    file: &[u8],
    choice: &mut C,
    schedule: &mut [u8],
    sheet: &mut [u8],
) -> Result<usize, Refusal>
    requires { (T : ℕ) → 0 < T → C.right T (C.kept choice.old) }
    ensures sheeted { SheetedBy (way_by C.chooser (C.kept choice.old)) ⊤ file.now
        schedule.old schedule.new sheet.old sheet.new (length_of result) }
    ensures refused { IsOkUnless result SheetTooSmall }
    ensures roomy { IfOk result (λ len. 8192 ≤ length sheet.old) }
{
    let mut locks: Locks = [[0; 512]; 2];
    let ran = give_file(file, choice, schedule, sheet.len(), &mut locks);
    write_both(sheet, ran, &locks)
}

// Gives the steps of a file of wanted calls going round the threads by number, from thread 0 on; all else is as
// `give_file` has it.
pub fn dispatch_file(file: &[u8], schedule: &mut [u8], page: usize, locks: &mut Locks) -> Ran
    ensures { Answers file.now schedule.old schedule.new page
        locks.old locks.new result }
{
    let mut choice = GoingRound { turn: 0 };
    give_file(file, &mut choice, schedule, page, locks)
}

// Dispatches a file of wanted calls: the steps given come back as a schedule in the lent buffer, and the sheet is
// written into its own. Gives the sheet's length. A sheet's buffer below 8,192 bytes is refused, and nothing is written
// into it.
pub fn sheet_file(file: &[u8], schedule: &mut [u8], sheet: &mut [u8]) -> Result<usize, Refusal>
    ensures sheeted { Sheeted file.now
        schedule.old schedule.new sheet.old sheet.new (length_of result) }
    ensures refused { IsOkUnless result SheetTooSmall }
    ensures roomy { IfOk result (λ len. 8192 ≤ length sheet.old) }
{
    let mut choice = GoingRound { turn: 0 };
    give_sheet(file, &mut choice, schedule, sheet)
}
