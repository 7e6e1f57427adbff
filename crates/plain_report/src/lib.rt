// The plain engine's sheet: no node lines, `-` for each ticket. It is written from the lock in place, as the tree's is,
// with the same writers.
#![tactic(auto)]

ghost use Rattle.std.specs.Prelude.{◌≤◌, length, take, IfOk, IsOkUnless};
ghost use Rattle.lock.specs.Sheet.{lines};
ghost use Rattle.cells.specs.View.{word_of, state_of};
ghost use Rattle.lock.specs.declared.Refusal.TheVariants.{SheetTooSmall};
ghost use Rattle.text.specs.Page.{Fits, Adds};
ghost use Rattle.text.specs.Asked.{length_of};
ghost use Rattle.plain_model.specs.Sheet.{plain_standing, plain_thread_line, plain_root_line};
ghost use Rattle.plain_calls.specs.View.{root_of, plain_of};
ghost use Rattle.plain_report.specs.Report.{shown, shown_line, some_lines, sheet_of_run, Sheeted};

use cells::{Cell, Lock, Pc, direct_of};
use file::is_stateless;
use lines::{put_closed, put_queue};
use lock::{Ran, Refusal, Sizes};
use plain_engine::run_file;
use text::{Page, check_room};

fn put_root(page: &mut Page, v: u64)
    requires { Fits page.old (plain_root_line (root_of (word_of v))) }
    ensures { Adds page.old (plain_root_line (root_of (word_of v))) page.new }
{
    page.put_field(b"root ", direct_of(v) as usize);
    put_closed(page, v);
}

// A thread's standing, by its program counter; neither ticket nor failures are known here. But for the ticket it is the
// tree's.
fn put_standing(page: &mut Page, pc: u64)
    requires { Fits page.old (plain_standing (shown pc)) }
    ensures { Adds page.old (plain_standing (shown pc)) page.new }
{
    if pc == Pc::READING {
        page.put_text(b" reading - 0\n");
    } else {
        thread_line::put_standing(page, pc, 0);
        page.put_text(b" 0\n");
    }
}

fn put_thread(page: &mut Page, t: usize, pc: u64)
    requires { Fits page.old (shown_line t pc) }
    ensures { Adds page.old (shown_line t pc) page.new }
{
    page.put_field(b"thread ", t);
    put_standing(page, pc);
}

// The lines of the first n threads.
fn put_threads(page: &mut Page, l: &Lock, n: usize)
    requires { Fits page.old (lines plain_thread_line 0 (take n (state_of l.now).threads)) }
    ensures { Adds page.old (lines plain_thread_line 0 (take n (state_of l.now).threads)) page.new }
{
    let end = n.min(64);
    for t in 0..end {
        put_thread(page, t, l[Cell::PC + t]);
    }
}

// Nobody has the mutex between calls.
fn put_state(page: &mut Page, z: Sizes, l: &Lock)
    requires { Fits page.old (some_lines z (plain_of (state_of l.now))) }
    ensures { Adds page.old (some_lines z (plain_of (state_of l.now))) page.new }
{
    put_root(page, l[Cell::ROOT]);
    put_queue(page, Cell::FREE, l[Cell::READERS], l[Cell::WRITERS]);
    put_threads(page, l, z.threads);
}

// The sheet of a run of calls that left the lock so.
fn put_sheet(page: &mut Page, ran: Ran, l: &Lock)
    requires { Fits page.old (sheet_of_run ran l.now) }
    ensures { Adds page.old (sheet_of_run ran l.now) page.new }
{
    page.put_answer(ran.answer, ran.taken);
    if is_stateless(ran.answer) {
        return;
    }
    let z = ran.sizes;
    put_state(page, z, l);
}

// Runs a file of calls and writes its sheet into the buffer. Gives the sheet's length, or refusal 9 where the buffer is
// below 8,192 bytes and nothing is written into it.
pub fn sheet_file(file: &[u8], sheet: &mut [u8]) -> Result<usize, Refusal>
    ensures sheeted { Sheeted file.now sheet.old sheet.new (length_of result) }
    ensures refused { IsOkUnless result SheetTooSmall }
    ensures roomy { IfOk result (λ len. 8192 ≤ length sheet.old) }
{
    let mut l: Lock = [0; 512];
    let ran = run_file(file, &mut l);
    check_room(sheet.len())?;
    let mut page = Page::new(sheet);
    put_sheet(&mut page, ran, &l);
    Ok(page.at)
}
