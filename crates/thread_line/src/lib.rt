// The line of a thread on the bench's sheet, from the numbers that it shows, as the crate `lines` has the others.
#![tactic(auto)]

ghost use Rattle.lock.specs.Sheet.{standing_fields};
ghost use Rattle.text.specs.Page.{Fits, Adds};
ghost use Rattle.thread_line.specs.Shown.{shown, shown_line};

use cells::Pc;
use text::Page;

// The standing of a thread by its program counter, and its route while reading, the ticket. Called, it would need the
// page behind a reference in the loop over the threads (crate `text`, `Page`).
#[inline(always)]
pub fn put_standing(page: &mut Page, pc: u64, route: u64)
    requires { Fits page.old (standing_fields (shown pc route)) }
    ensures { Adds page.old (standing_fields (shown pc route)) page.new }
{
    match pc {
        Pc::IDLE => page.put_text(b" idle -"),
        Pc::WRITING => page.put_text(b" writing -"),
        Pc::READING => page.put_field(b" reading ", route as usize),
        Pc::ASLEEP => page.put_text(b" asleep -"),
        _ => page.put_text(b" calling -"),
    }
}

pub fn put_thread(page: &mut Page, t: usize, pc: u64, route: u64, failures: u64)
    requires { Fits page.old (shown_line t pc route failures) }
    ensures { Adds page.old (shown_line t pc route failures) page.new }
{
    page.put_field(b"thread ", t);
    put_standing(page, pc, route);
    page.put_last(b" ", failures as usize);
}
