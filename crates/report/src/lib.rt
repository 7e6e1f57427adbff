// The sheet of a run, written from the two locks in place, line by line (crate `lines`). A lock is read in three places
// alone: the words, the queue, the threads. Each function has the contract of those of the crate `text`: what it writes
// has room, and then it stands there.
#![tactic(auto)]

ghost use Rattle.std.specs.Prelude.{◌≡◌, take};
ghost use Rattle.lock.specs.Sheet.{answer_line, word_line, lines, thread_line, state_lines};
ghost use Rattle.text.specs.Page.{Fits, Adds};
ghost use Rattle.cells.specs.View.{state_of};
ghost use Rattle.report.specs.declared.Numbers.{Numbers};
ghost use Rattle.report.specs.Report.{numbers_of, sheet_of_numbers};

use cells::{Cell, Lock, failures_of};
use file::is_stateless;
use lines::{put_queue, put_word};
use lock::{Ran, Sizes, answer_number};
use text::Page;
use thread_line::put_thread;

// What a run came to, by numbers: its answer's, the rows taken, and the sizes of its file.
// Kept: the answer is any number, also one that no refusal has, so that the sheet of any can be asked for.
#[derive(Clone, Copy)]
pub struct Numbers {
    pub answer: u8,
    pub taken: usize,
    pub sizes: Sizes,
}

// What a run came to: as the bench gives it, or by numbers.
pub trait Outcome: Copy {
    ghost numbers: { Self → Numbers };

    fn numbers(self) -> Numbers
        ensures { result ≡ numbers self };
}

impl Outcome for Ran {
    ghost numbers = { numbers_of };

    // Kept: field by field, since the answers differ in type.
    fn numbers(self) -> Numbers {
        Numbers {
            answer: answer_number(self.answer),
            taken: self.taken,
            sizes: self.sizes,
        }
    }
}

impl Outcome for Numbers {
    ghost numbers = { λ n. n };

    fn numbers(self) -> Numbers {
        self
    }
}

// The answer's number, and the rows taken.
// Kept: beside `Page::put_answer`, which takes no number.
pub fn put_answer(page: &mut Page, answer: u8, taken: usize)
    requires { Fits page.old (answer_line answer taken) }
    ensures { Adds page.old (answer_line answer taken) page.new }
{
    page.put_field(b"answer ", usize::from(answer));
    page.put_last(b" at ", taken);
}

// The lines of the first n words.
fn put_words(page: &mut Page, l: &Lock, n: usize)
    requires { Fits page.old (lines word_line 0 (take n (state_of l.now).words)) }
    ensures { Adds page.old (lines word_line 0 (take n (state_of l.now).words)) page.new }
{
    let end = n.min(32);
    let mut own = Page {
        buf: &mut *page.buf,
        at: page.at,
    };
    for i in 0..end {
        put_word(&mut own, i, l[i]);
    }
    page.at = own.at;
}

// The lines of the first n threads.
//
// Kept: a loop of its own beside that of the words. One function over both would take a closure that writes a line, and
// its clauses would say what that writes once more for each; the loops' proof is one already (`text` proofs/Lines
// `Sofar`).
fn put_threads(page: &mut Page, l: &Lock, n: usize)
    requires { Fits page.old (lines thread_line 0 (take n (state_of l.now).threads)) }
    ensures { Adds page.old (lines thread_line 0 (take n (state_of l.now).threads)) page.new }
{
    let end = n.min(64);
    let mut own = Page {
        buf: &mut *page.buf,
        at: page.at,
    };
    for t in 0..end {
        put_thread(
            &mut own,
            t,
            l[Cell::PC + t],
            l[Cell::ROUTE + t],
            failures_of(l, t),
        );
    }
    page.at = own.at;
}

pub fn put_state(page: &mut Page, z: Sizes, l: &Lock)
    requires { Fits page.old (state_lines z (state_of l.now)) }
    ensures { Adds page.old (state_lines z (state_of l.now)) page.new }
{
    put_words(page, l, z.nodes);
    put_queue(page, l[Cell::MUTEX], l[Cell::READERS], l[Cell::WRITERS]);
    put_threads(page, l, z.threads);
}

// The sheet of a run that left the two locks so: the first lock's lines, then the second's.
pub fn put_sheet<O: Outcome>(page: &mut Page, ran: O, one: &Lock, two: &Lock)
    requires { Fits page.old (sheet_of_numbers (O.numbers ran) one.now two.now) }
    ensures { Adds page.old (sheet_of_numbers (O.numbers ran) one.now two.now) page.new }
{
    let came = ran.numbers();
    put_answer(page, came.answer, came.taken);
    if is_stateless(came.answer) {
        return;
    }
    let z = came.sizes;
    put_state(page, z, one);
    put_state(page, z, two);
}
