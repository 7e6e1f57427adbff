// A turn of a site's run, in place: what is known between two turns is one struct, which each function changes where it
// lies. A turn is passed over, spent, or a row of the lock; after a row the calls that are over are finished.
#![tactic(auto)]

ghost use Rattle.std.specs.Prelude.{◌≡◌, ◌≢◌, ◌≤◌, ◌<◌, eqb, length, get_or};
ghost use Rattle.std.specs.Prelude.{if◌then◌else◌};
ghost use Rattle.lock.specs.Bound.{steps_before};
ghost use Rattle.lock.specs.Run.{step};
ghost use Rattle.cells.specs.View.{state_of};
ghost use Rattle.step.specs.Reached.{Reached, Steps};
ghost use Rattle.site_model.specs.Tally.{is_write_lock, is_read_lock, got_if, call_over};
ghost use Rattle.site_model.specs.Site.{behind_call, finished_at, finished, row_of, at_turn};
ghost use Rattle.site_model.specs.Code.{FewWaits, Few};
ghost use Rattle.site_turn.specs.Turns.{MADE, ROOM, nothing_known, site_in, going_of, Waiting, reordered, Countable, row_counted};
ghost use Rattle.site_turn.specs.Turns.{Callable, call_begun, begun_if, Finishable, Ends, finished_after};
ghost use Rattle.site_turn.specs.Turns.{Gets, IsFor, Turnable, Turned};

mod plan;

use cells::{Cell, Lock, Pc};
use execute::go_on;
use lock::{Entry, Refusal, Sizes};
use orders::begin;
pub use plan::{Pace, Plan};
use site_model::{Tally, Waits};

// ---- what is known

// What is known between two turns: the lock; of each thread the place of its next call, the own turns that it still
// lets pass, the order of the call that it is in (0 where it is in none), the rows made when that call began, the calls
// that it has finished and its failed swaps; the rows made, the threads that wait for a write-lock and for a read-lock,
// and what is measured.
// Kept: an array for each of these and not one of a struct for each thread. The definitions' `Going` (`site_model`
// specs/Site), of which the theorem `replays` and the sheet speak, has a list for each, and so `going_of` is its fields.
// Kept: `Waiting`, that the two numbers count the threads that wait, stands in the clauses and is no ghost field: the
// definitions `reordered`, `row_counted` and `call_begun` change fields of a state, and each would carry its proof.
#[derive(Clone, Copy)]
pub struct SiteState {
    pub lock: Lock,
    pub next: [u16; 64],
    pub pause: [u8; 64],
    pub order: [u8; 64],
    pub since: [u64; 64],
    pub done: [u64; 64],
    pub failed: [u64; 64],
    pub row: u64,
    pub writing: u64,
    pub reading: u64,
    pub tally: Tally,
}

// What a turn is for: it is passed over, spent, or a row with this order.
#[derive(Clone, Copy)]
enum Purpose {
    PassedOver,
    Spent,
    Row(u8),
}

// ---- what a call costs

fn is_write_lock(order: u8) -> bool
    ensures { result ≡ is_write_lock order }
{
    order == 1
}

fn is_read_lock(order: u8) -> bool
    ensures { result ≡ is_read_lock order }
{
    64 <= order
}

// A lock was got after so many rows, if it is one of this kind.
fn got_if(yes: bool, rows: u64, waits: &mut Waits)
    requires { FewWaits ROOM waits.old }
    ensures { waits.new ≡ got_if yes rows waits.old }
{
    if yes {
        waits.got += 1;
        waits.longest = waits.longest.max(rows);
    }
}

fn call_over(order: u8, rows: u64, tally: &mut Tally)
    requires { Few ROOM tally.old }
    ensures { tally.new ≡ call_over order rows tally.old }
{
    tally.finished += 1;
    got_if(is_write_lock(order), rows, &mut tally.writers);
    got_if(is_read_lock(order), rows, &mut tally.readers);
}

// ---- the parts of a turn

// Thread t goes on with its call, or begins one.
// Kept: a test of the order, and no closure for the step: `go_on` and `begin` stay direct calls, as the definition
// `obey` (`lock` specs/Call) has two cases.
fn row_at(z: Sizes, l: &mut Lock, t: usize, order: u8) -> Result<Entry, Refusal>
    requires { (Reached z steps_before l.old) × (t < z.threads) }
    ensures { Steps z (record { thread = t; order = order }) l.old l.new result }
{
    if order == 0 {
        return go_on(z, l, t);
    }
    begin(z, l, t, order)
}

impl Pace {
    // How many of its turns a thread that is in no call lets pass: it thinks where it is idle, else it holds.
    fn pause_at(self, pc: u64) -> u8
        ensures { result ≡ (if eqb pc 0 then self.think else self.hold) }
    {
        if pc == Pc::IDLE {
            self.think
        } else {
            self.hold
        }
    }
}

impl Plan<'_> {
    // The place of the call behind thread t's at place `call`: after its last its first again.
    fn behind_call(&self, t: usize, call: usize) -> u16
        requires { Callable self.now t call }
        ensures { result ≡ behind_call t self.now.threads.now call }
    {
        let next = self.later[call];
        if usize::from(next) < self.threads.len() {
            return next;
        }
        self.first[t]
    }
}

impl SiteState {
    // Nothing is known or measured. The lock is not made yet, and no call has a place.
    pub fn new() -> SiteState
        ensures { result ≡ nothing_known }
    {
        SiteState {
            lock: [0; 512],
            next: [0; 64],
            pause: [0; 64],
            order: [0; 64],
            since: [0; 64],
            done: [0; 64],
            failed: [0; 64],
            row: 0,
            writing: 0,
            reading: 0,
            tally: Tally::default(),
        }
    }

    // Thread t's order is this one now, and so is who waits for a lock.
    fn set_order(&mut self, t: usize, order: u8)
        requires { (t < 64) × (Waiting self.old) }
        ensures is { self.new ≡ reordered t order self.old }
        ensures waiting { Waiting self.new }
    {
        let was = self.order[t];
        self.order[t] = order;
        self.writing += u64::from(is_write_lock(order));
        self.writing -= u64::from(is_write_lock(was));
        self.reading += u64::from(is_read_lock(order));
        self.reading -= u64::from(is_read_lock(was));
    }

    // ---- a row

    // Thread t made a row.
    fn count_row(&mut self, t: usize, entry: Entry)
        requires { Countable t self.old }
        ensures { self.new ≡ row_counted t entry self.old }
    {
        let failed = u64::from(entry.kind == Entry::FAILED);
        self.row += 1;
        self.failed[t] += failed;
        self.tally.rows += 1;
        self.tally.failed += failed;
        self.tally.root += u64::from(entry.word == 0);
        self.tally.held += u64::from(entry.kind == Entry::HELD_UP);
        self.tally.writers.waited += self.writing;
        self.tally.readers.waited += self.reading;
    }

    // That row was the first of its call.
    fn begin_call(&mut self, plan: &Plan<'_>, t: usize, order: u8)
        requires { (Callable plan.now t (get_or self.old.next t 0)) × (Waiting self.old) }
        ensures is { self.new ≡ call_begun plan.now.threads.now t order self.old }
        ensures waiting { Waiting self.new }
    {
        self.next[t] = plan.behind_call(t, usize::from(self.next[t]));
        self.since[t] = self.row;
        self.set_order(t, order);
    }

    // That row was made with this order, and was the first of its call unless the order is 0.
    fn begin_if(&mut self, plan: &Plan<'_>, t: usize, order: u8)
        requires { (order ≢ 0 → Callable plan.now t (get_or self.old.next t 0)) × (Waiting self.old) }
        ensures is { self.new ≡ begun_if plan.now.threads.now t order self.old }
        ensures waiting { Waiting self.new }
    {
        if order != 0 {
            self.begin_call(plan, t, order);
        }
    }

    // ---- calls that are over

    // Thread u's call, if it is over.
    fn finish(&mut self, pace: Pace, u: usize)
        requires { (u < 64) × (Finishable ROOM self.old) }
        ensures { Ends (finished_at pace.hold pace.think u) self.old self.new }
    {
        let order = self.order[u];
        if order == 0 {
            return;
        }
        let pc = self.lock[Cell::PC + u];
        if Pc::LOOK <= pc {
            return;
        }
        self.pause[u] = pace.pause_at(pc);
        self.done[u] += 1;
        call_over(order, self.row - self.since[u], &mut self.tally);
        self.set_order(u, 0);
    }

    // The calls of all threads that are over.
    fn finish_all(&mut self, pace: Pace, threads: usize)
        requires { (threads ≤ 64) × (Finishable MADE self.old) }
        ensures { Ends (finished pace.hold pace.think threads) self.old self.new }
    {
        for u in 0..threads {
            self.finish(pace, u);
        }
    }

    // After a row of this kind by thread t: only a row that wakes can end the calls of others.
    fn finish_row(&mut self, plan: &Plan<'_>, kind: u8, t: usize)
        requires { (plan.now.sizes.threads ≤ 64) × (t < 64) × (Finishable MADE self.old) }
        ensures { Ends (finished_after plan.now kind t) self.old self.new }
    {
        if kind == Entry::WOKEN {
            self.finish_all(plan.pace, plan.sizes.threads);
        } else {
            self.finish(plan.pace, t);
        }
    }

    // ---- a turn

    // Thread t makes a row, with an order that it begins a call by, or with 0.
    fn row_of(&mut self, plan: &Plan<'_>, t: usize, order: u8) -> Result<(), Refusal>
        requires { (Turnable plan.now self.old) × (Gets plan.now self.old t order) }
        ensures { Turned plan.now t (row_of (site_in plan.now) t order (going_of self.old)
            (step plan.now.sizes (state_of self.old.lock) (record { thread = t; order = order }))) self.old self.new result }
    {
        let entry = row_at(plan.sizes, &mut self.lock, t, order)?;
        self.count_row(t, entry);
        self.begin_if(plan, t, order);
        self.finish_row(plan, entry.kind, t);
        Ok(())
    }

    // What the turn of thread t, or of none, is for.
    // Kept: tests of the program counter by numbers: the lock is an array of numbers, and `due` (`site_model` specs/Site)
    // asks in this order.
    fn purpose_of(&self, plan: &Plan<'_>, t: usize) -> Purpose
        requires { Reached plan.now.sizes steps_before self.now.lock }
        ensures { IsFor plan.now self.now t result }
    {
        if plan.sizes.threads <= t {
            return Purpose::PassedOver;
        }
        let pc = self.lock[Cell::PC + t];
        if pc == Pc::ASLEEP {
            return Purpose::PassedOver;
        }
        if Pc::LOOK <= pc {
            return Purpose::Row(0);
        }
        let call = usize::from(self.next[t]);
        if plan.threads.len() <= call {
            return Purpose::PassedOver;
        }
        if 0 < self.pause[t] {
            return Purpose::Spent;
        }
        Purpose::Row(plan.orders[call])
    }

    // The turn of thread t, or of none. A call that is refused ends the run: nothing is changed then.
    pub fn at_turn(&mut self, plan: &Plan<'_>, t: usize) -> Result<(), Refusal>
        requires { Turnable plan.now self.old }
        ensures { Turned plan.now t (at_turn (site_in plan.now) t (going_of self.old)) self.old self.new result }
    {
        match self.purpose_of(plan, t) {
            Purpose::PassedOver => {
                self.tally.passed += 1;
                Ok(())
            },
            Purpose::Spent => {
                self.pause[t] -= 1;
                let holds = self.lock[Cell::PC + t] != Pc::IDLE;
                self.tally.holding += u64::from(holds);
                self.tally.thinking += u64::from(!holds);
                Ok(())
            },
            Purpose::Row(order) => self.row_of(plan, t, order),
        }
    }
}
