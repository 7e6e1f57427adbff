// The sheet of a site's run: lines of numbers, each with its name.
#![tactic(auto)]

ghost use Rattle.std.specs.Prelude.{◌≡◌, ◌∷◌, [], ◌++◌, ◌≤◌, length, take, IfOk, IsOkUnless};
ghost use Rattle.lock.specs.Sheet.{lines};
ghost use Rattle.lock.specs.declared.Refusal.TheVariants.{SheetTooSmall};
ghost use Rattle.text.specs.Page.{Fits, Adds};
ghost use Rattle.text.specs.Asked.{length_of};
ghost use Rattle.site_model.specs.Tally.{is_call};
ghost use Rattle.site_model.specs.Site.{counted};
ghost use Rattle.site_model.specs.Sheet.{field, thread_line, cost_lines, wait_lines, site_lines};
ghost use Rattle.site_turn.specs.Turns.{going_of};
ghost use Rattle.site_run.specs.Runs.{Ended};
ghost use Rattle.site_report.specs.Sheeted.{SheetsSite};

use file::sizes_of;
use lock::Refusal;
use site_run::run_site;
use site_turn::SiteState;
use text::{Page, check_room};

// A number behind a space.
fn put_count(page: &mut Page, n: u64)
    requires { Fits page.old (field 0 n) }
    ensures { Adds page.old (field 0 n) page.new }
{
    page.put(b' ');
    page.put_digits(20, n as usize);
}

// Numbers, one behind the other.
// Kept: a loop of its own, as the lines of threads have. One function over both would take a closure that writes a
// piece, and its clauses would say once more what that writes; the loops' proof is one already (`text` proofs/Lines
// `Sofar`).
fn put_counts(page: &mut Page, ns: &[u64])
    requires { Fits page.old (lines field 0 ns.now) }
    ensures { Adds page.old (lines field 0 ns.now) page.new }
{
    for &n in ns {
        put_count(page, n);
    }
}

// A line of numbers, with its name.
fn put_line(page: &mut Page, name: &[u8], ns: &[u64])
    requires { Fits page.old (name.now ++ lines field 0 ns.now ++ 10 ∷ []) }
    ensures { Adds page.old (name.now ++ lines field 0 ns.now ++ 10 ∷ []) page.new }
{
    page.put_text(name);
    put_counts(page, ns);
    page.put(b'\n');
}

// How many threads are in a call, by the orders of their calls.
fn calls_in(order: &[u8; 64]) -> u64
    ensures { result ≡ counted is_call order.now }
{
    let mut calls = 0;
    for &own in order {
        calls += u64::from(own != 0);
    }
    calls
}

// What the turns and rows cost, and the calls.
// Kept: `Ended` is asked by each function from here on and is no ghost field of a state: its bounds hold at the end of
// a run, and not between two stores of a turn (`ROOM`, `site_turn` specs/Turns).
fn put_costs(page: &mut Page, state: &SiteState)
    requires { (Ended state.now) × (Fits page.old (cost_lines state.now.tally state.now.order)) }
    ensures { Adds page.old (cost_lines state.now.tally state.now.order) page.new }
{
    let y = state.tally;
    let used = y.passed + y.holding + y.thinking + y.rows;
    let turns = [used, y.passed, y.holding, y.thinking];
    let calls = [y.finished, calls_in(&state.order)];
    let rows = [y.rows, y.failed, y.root, y.held];
    put_line(page, b"turns", &turns);
    put_line(page, b"calls", &calls);
    put_line(page, b"rows", &rows);
}

// The waits for write-locks and for read-locks.
fn put_waits(page: &mut Page, state: &SiteState)
    requires { (Ended state.now) × (Fits page.old (wait_lines state.now.tally state.now.order)) }
    ensures { Adds page.old (wait_lines state.now.tally state.now.order) page.new }
{
    let w = state.tally.writers;
    let r = state.tally.readers;
    let writers = [w.got, w.waited, w.longest, state.writing];
    let readers = [r.got, r.waited, r.longest, state.reading];
    put_line(page, b"write-locks", &writers);
    put_line(page, b"read-locks", &readers);
}

// A line for each of n threads.
fn put_threads(page: &mut Page, n: usize, state: &SiteState)
    requires { (n ≤ 64) × (Ended state.now)
        × (Fits page.old (lines (thread_line state.now.failed) 0 (take n state.now.done))) }
    ensures { Adds page.old (lines (thread_line state.now.failed) 0 (take n state.now.done)) page.new }
{
    for t in 0..n {
        let line = [t as u64, state.done[t], state.failed[t]];
        put_line(page, b"thread", &line);
    }
}

// What is known at the end of a run of n threads.
fn put_site(page: &mut Page, n: usize, state: &SiteState)
    requires { (n ≤ 64) × (Ended state.now) × (Fits page.old (site_lines n (going_of state.now))) }
    ensures { Adds page.old (site_lines n (going_of state.now)) page.new }
{
    put_costs(page, state);
    put_waits(page, state);
    put_threads(page, n, state);
}

// Runs a site at the lent turns, and writes its sheet into the buffer. Gives the sheet's length. A buffer below 8,192
// bytes is refused: then nothing is run or written.
pub fn sheet_site(site: &[u8], turns: &[u8], sheet: &mut [u8]) -> Result<usize, Refusal>
    ensures sheeted { SheetsSite site.now turns.now sheet.old sheet.new (length_of result) }
    ensures refused { IsOkUnless result SheetTooSmall }
    ensures roomy { IfOk result (λ len. 8192 ≤ length sheet.old) }
{
    check_room(sheet.len())?;
    let mut state = SiteState::new();
    let mut page = Page::new(sheet);
    match run_site(site, turns, &mut state) {
        Err(refusal) => {
            page.put_answer(Err(refusal), 0);
            Ok(page.at)
        },
        Ok(answer) => {
            page.put_answer(answer, state.row as usize);
            put_site(&mut page, sizes_of(site).threads, &state);
            Ok(page.at)
        },
    }
}
