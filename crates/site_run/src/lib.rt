// A site's run, in place: the checks of its file, and the loop over the lent turns. No row is kept, and no turn copies
// the state.
#![tactic(auto)]

ghost use Rattle.std.specs.Prelude.{◌≡◌, ◌+◌, ◌≤◌, ◌<◌, length};
ghost use Rattle.lock.specs.Refusal.{answer_number};
ghost use Rattle.site_model.specs.File.{row_count, threads_of, orders_of, site_of, shape_refusal, refusal};
ghost use Rattle.site_turn.specs.Turns.{site_in};
ghost use Rattle.site_run.specs.Runs.{measured_if, Running, RanTo, pace_of, RanSite};

use dispatcher::{check_rows, link_rows};
use file::{all_fit, byte_at, sizes_of, two_bytes};
use lock::Refusal;
use site_model::Tally;
use site_turn::{Pace, Plan, SiteState};
use step::fresh;

// ---- the turns

// Where the warm-up is over nothing counts that was counted in it.
fn measure_if(over: bool, state: &mut SiteState)
    ensures { state.new ≡ measured_if over state.old }
{
    if over {
        state.done = [0; 64];
        state.failed = [0; 64];
        state.tally = Tally::default();
    }
}

// The turns, one after the other, up to one whose row is refused.
fn run_turns(plan: &Plan<'_>, turns: &[u8], state: &mut SiteState) -> Result<(), Refusal>
    requires { Running plan.now turns.now state.old }
    ensures { RanTo (site_in plan.now) turns.now state.new result }
{
    for (i, &t) in turns.iter().enumerate() {
        measure_if(i == plan.pace.warm, state);
        if let Err(refusal) = state.at_turn(plan, usize::from(t)) {
            measure_if(i <= plan.pace.warm, state);
            return Err(refusal);
        }
    }
    measure_if(turns.len() <= plan.pace.warm, state);
    Ok(())
}

// ---- the site file

// The number of rows that a site file says it has.
fn rows_of(site: &[u8]) -> usize
    ensures { (result ≡ row_count site.now) × (result < 65536) }
{
    two_bytes(site, 5, 6)
}

// The threads and the orders of the wanted calls.
fn calls_of(site: &[u8]) -> (&[u8], &[u8])
    requires { 11 + row_count site.now ≤ length site.now }
    ensures { (result.0.now ≡ threads_of site.now) × (result.1.now ≡ orders_of site.now) }
{
    site[11..].split_at(rows_of(site))
}

fn pace_of(site: &[u8]) -> Pace
    ensures { result ≡ pace_of site.now }
{
    Pace {
        hold: byte_at(site, 3) as u8,
        think: byte_at(site, 4) as u8,
        warm: two_bytes(site, 7, 8) + 65536 * two_bytes(site, 9, 10),
    }
}

// The first of refusals 1 to 3 that applies to a site file with so many turns.
fn check_shape(site: &[u8], turns: usize) -> Result<(), Refusal>
    ensures { answer_number result ≡ shape_refusal site.now turns }
{
    if site.len() < 11 {
        return Err(Refusal::TooShort);
    }
    let rows = rows_of(site);
    if !all_fit(sizes_of(site), rows) {
        return Err(Refusal::SizeOutOfRange);
    }
    if site.len() != 11 + 2 * rows {
        return Err(Refusal::WrongLength);
    }
    if 4294967294 < turns {
        return Err(Refusal::WrongLength);
    }
    Ok(())
}

// The first refusal that applies to a site file with so many turns, of its shape or of one of its rows.
fn check_site(site: &[u8], turns: usize) -> Result<(), Refusal>
    ensures { answer_number result ≡ refusal site.now turns }
{
    check_shape(site, turns)?;
    let (threads, orders) = calls_of(site);
    check_rows(sizes_of(site), threads, orders)
}

// Runs a site that no check refuses, from the fresh lock on: each thread is before its first call.
fn run_checked(site: &[u8], turns: &[u8], state: &mut SiteState) -> Result<(), Refusal>
    requires { refusal site.now (length turns.now) ≡ 0 }
    ensures { RanTo (site_of site.now) turns.now state.new result }
{
    let (threads, orders) = calls_of(site);
    let mut first: [u16; 64] = [0; 64];
    let mut later: [u16; 4096] = [0; 4096];
    link_rows(threads, &mut first, &mut later);
    *state = SiteState::new();
    fresh(&mut state.lock);
    state.next = first;
    let plan = Plan {
        sizes: sizes_of(site),
        pace: pace_of(site),
        threads,
        orders,
        first: &first,
        later: &later,
    };
    run_turns(&plan, turns, state)
}

// Runs a site at the lent turns: gives the run's answer, and what is known at its end is in the caller's state. A file
// that is refused is not run: its refusal is the error, and the state is as it was. It asks nothing of the file or the
// turns.
pub fn run_site(
    site: &[u8],
    turns: &[u8],
    state: &mut SiteState,
) -> Result<Result<(), Refusal>, Refusal>
    ensures { RanSite site.now turns.now state.old state.new result }
{
    check_site(site, turns.len())?;
    Ok(run_checked(site, turns, state))
}
