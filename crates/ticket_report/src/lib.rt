// The ticket lock's sheet, and that of a ticket file.
#![tactic(auto)]

ghost use Rattle.std.specs.Prelude.{◌≡◌, ◌≤◌, length, take, IfOk, IsOkUnless};
ghost use Rattle.lock.specs.Sheet.{lines};
ghost use Rattle.lock.specs.declared.Refusal.TheVariants.{SheetTooSmall};
ghost use Rattle.text.specs.Page.{Fits, Adds};
ghost use Rattle.text.specs.Asked.{length_of};
ghost use Rattle.ticket_model.specs.Sheet.{is_far, distance, standing_field, thread_line, state_lines};
ghost use Rattle.ticket_lock.specs.Rows.{ran_on};
ghost use Rattle.ticket_report.specs.Report.{sheet_of_run, Sheeted};

use file::is_stateless;
use lock::Refusal;
use text::{Page, check_room};
use ticket_lock::{Answered, run_on};
use ticket_model::{Lock, Standing, Thread};

// Is a ticket more than 1 past the grant, counted round the wrap?
pub fn is_far(own: u16, grant: u16) -> bool
    ensures { result ≡ is_far own grant }
{
    1 < own.wrapping_sub(grant)
}

fn put_distance(page: &mut Page, far: bool)
    requires { Fits page.old (distance far) }
    ensures { Adds page.old (distance far) page.new }
{
    if far {
        page.put_text(b" far\n")
    } else {
        page.put_text(b" near\n")
    }
}

fn put_standing(page: &mut Page, grant: u16, own: u16, standing: Standing)
    requires { Fits page.old (standing_field grant own standing) }
    ensures { Adds page.old (standing_field grant own standing) page.new }
{
    match standing {
        Standing::Idle => page.put_text(b" idle\n"),
        Standing::Waiting => put_distance(page, is_far(own, grant)),
        Standing::Holding => page.put_text(b" holding\n"),
    }
}

fn put_thread(page: &mut Page, grant: u16, t: usize, thread: Thread)
    requires { Fits page.old (thread_line grant t thread) }
    ensures { Adds page.old (thread_line grant t thread) page.new }
{
    let standing = thread.standing;
    page.put_field(b"thread ", t);
    put_standing(page, grant, thread.own, standing);
}

// The lines of the first n threads.
fn put_threads(page: &mut Page, grant: u16, threads: &[Thread; 64], n: usize)
    requires { Fits page.old (lines (thread_line grant) 0 (take n threads.now)) }
    ensures { Adds page.old (lines (thread_line grant) 0 (take n threads.now)) page.new }
{
    let end = n.min(64);
    for t in 0..end {
        put_thread(page, grant, t, threads[t]);
    }
}

fn put_state(page: &mut Page, count: usize, lock: &Lock)
    requires { Fits page.old (state_lines count lock.now) }
    ensures { Adds page.old (state_lines count lock.now) page.new }
{
    page.put_last(b"ticket ", lock.ticket as usize);
    page.put_last(b"grant ", lock.grant as usize);
    put_threads(page, lock.grant, &lock.threads, count);
}

// The sheet of a run that left the lock so.
fn put_sheet(page: &mut Page, answered: Answered, lock: &Lock)
    requires { Fits page.old (sheet_of_run (ran_on answered lock.now)) }
    ensures { Adds page.old (sheet_of_run (ran_on answered lock.now)) page.new }
{
    page.put_answer(answered.answer, answered.taken);
    if is_stateless(answered.answer) {
        return;
    }
    put_state(page, answered.threads, lock);
}

// Runs a ticket file and writes its sheet into the buffer. Gives the sheet's length, or refusal 9 where the buffer is
// below 8,192 bytes and nothing is written into it.
pub fn sheet_file(file: &[u8], sheet: &mut [u8]) -> Result<usize, Refusal>
    ensures sheeted { Sheeted file.now sheet.old sheet.new (length_of result) }
    ensures refused { IsOkUnless result SheetTooSmall }
    ensures roomy { IfOk result (λ len. 8192 ≤ length sheet.old) }
{
    let mut lock = Lock {
        ticket: 0,
        grant: 0,
        threads: [Thread::fresh(); 64],
    };
    let answered = run_on(file, &mut lock);
    check_room(sheet.len())?;
    let mut page = Page::new(sheet);
    put_sheet(&mut page, answered, &lock);
    Ok(page.at)
}
