// A step of the dispatcher, in place: the order that a thread draws, its row of the two locks (`turn::row`), and who is
// able to move after it; and whose turn it is, going round. Who is able to move and who wants a call are sets, so that
// a step does not grow with the threads.
#![tactic(auto)]

ghost use Rattle.std.specs.Prelude.{◌≡◌, ◌<◌, ltb, length, get_or};
ghost use Rattle.lock.specs.Phase.{standing};
ghost use Rattle.cells.specs.View as cells;
ghost use Rattle.dispatch_model.specs.Dispatch.{behind};
ghost use Rattle.dispatch_model.specs.Code.{pick, replaced, able_in, only_if};
ghost use Rattle.dispatch_step.specs.Steps.{drawn_order, drawn_heads, Drawable, wanting_after, able_after, woken_by};
ghost use Rattle.dispatch_step.specs.Steps.{Steppable, Stepped};

use cells::{Cell, Lock, Pc};
use lock::{Entry, Refusal, Sizes};
use queue::bit;
use turn::{Locks, row};
use waking::lowest;

// ---- whose turn it is

// The thread behind thread t, going round.
pub fn after_turn(threads: usize, t: usize) -> usize
    requires { t < 64 }
    ensures { result ≡ behind threads t }
{
    if t + 1 == threads { 0 } else { t + 1 }
}

// The first thread of a set, from thread t on, going round. Mostly it is t itself. Asked first, that is a guess which
// the processor makes ahead: the next step need not wait for the set that this one leaves (docs/DECISIONS.md, 79).
pub fn pick_from(able: u64, t: usize) -> usize
    requires { t < 64 }
    ensures { result ≡ pick able t }
{
    let ahead = able >> t;
    if ahead % 2 == 1 {
        return t;
    }
    if ahead == 0 {
        return lowest(able);
    }
    t + lowest(ahead)
}

// ---- sets of threads

// The set a, its part in b put by that of c.
pub fn replace(a: u64, b: u64, c: u64) -> u64
    ensures { result ≡ replaced a b c }
{
    (a - (a & b)) | (c & b)
}

pub fn only_if(t: usize, yes: bool) -> u64
    requires { t < 64 }
    ensures { result ≡ only_if t yes }
{
    if yes { bit(t) } else { 0 }
}

// Is a thread with this program counter able to move, by whether it wants a call?
fn able_in(pc: u64, wants: bool) -> bool
    ensures { result ≡ able_in (standing (cells.phase_of pc 0 0 0 0)) wants }
{
    if pc < Pc::LOOK {
        return wants;
    }
    pc != Pc::ASLEEP
}

// The group that a row of this kind woke, which its thread had in hand.
fn woken_by(kind: u8, hand: u64) -> u64
    ensures { result ≡ woken_by kind hand }
{
    if kind == Entry::WOKEN { hand } else { 0 }
}

// ---- who is able to move, and who wants a call

// Two sets: who is able to move, and who wants a call.
#[derive(Clone, Copy)]
pub struct Sets {
    pub able: u64,
    pub wanting: u64,
}

impl Sets {
    // Before the first step: whoever wants a call is able to move.
    pub fn begun(wanting: u64) -> Sets
        ensures { result ≡ record { able = wanting; wanting = wanting } }
    {
        Sets {
            able: wanting,
            wanting,
        }
    }

    // Who wants a call once thread t has made its step with this order: with order 0 it goes on with a call, and wants
    // what it wanted.
    fn wanting_after(self, t: usize, order: u8, more: bool) -> u64
        requires { t < 64 }
        ensures { result ≡ wanting_after self.wanting t order more }
    {
        if order == 0 {
            return self.wanting;
        }
        replace(self.wanting, bit(t), only_if(t, more))
    }

    // Who is able to move once thread t has made its step: the others as before, those woken if they want a call, and
    // t itself.
    fn able_after(self, woken: u64, wanting: u64, t: usize, moves: bool) -> u64
        requires { t < 64 }
        ensures { result ≡ able_after self.able woken wanting t moves }
    {
        let others = replace(self.able, woken, wanting);
        let own = only_if(t, moves);
        replace(others, bit(t), own)
    }
}

// ---- the calls that are wanted

// The rows of a file, each a call of its thread, as a list for each thread: the order of each row, and behind each row
// the place of its thread's next; the number of rows where there is none. The first of each list, `heads`, are apart: an
// array in this struct keeps the compiler from having the two references in registers, and each step reads them.
#[derive(Clone, Copy)]
pub struct Calls<'a> {
    pub orders: &'a [u8],
    pub later: &'a [u16; 4096],
}

// The place of thread t's next call among the file's rows.
fn call_of(heads: &[u16; 64], t: usize) -> usize
    requires { t < 64 }
    ensures { result ≡ get_or heads.now t 0 }
{
    usize::from(heads[t])
}

impl<'a> Calls<'a> {
    // Is there a row at this place?
    fn has(&self, place: usize) -> bool
        ensures { result ≡ ltb place (length self.now.orders.now) }
    {
        place < self.orders.len()
    }

    // The order that thread t gets: 0 inside a call. Outside it begins its next call, and its list goes on to the one
    // behind it.
    fn draw(&self, heads: &mut [u16; 64], l: &Lock, t: usize) -> u8
        requires { Drawable l.now t self.now.orders.now self.now.later.now heads.old }
        ensures value { result ≡ drawn_order l.now t self.now.orders.now heads.old }
        ensures heads_after { heads.new ≡ drawn_heads l.now t self.now.later.now heads.old }
    {
        if Pc::LOOK <= pc_of(l, t) {
            return 0;
        }
        let call = call_of(heads, t);
        heads[t] = self.later[call];
        self.orders[call]
    }
}

// ---- a step

// A step: its order, and the sets after it.
#[derive(Clone, Copy)]
pub struct Step {
    pub order: u8,
    pub sets: Sets,
}

// Thread t's program counter, and what it has seen last: the group in its hand, where it is to wake one.
fn pc_of(l: &Lock, t: usize) -> u64
    requires { t < 64 }
    ensures { result ≡ cells.pc l.now t }
{
    l[Cell::PC + t]
}

fn seen_by(l: &Lock, t: usize) -> u64
    requires { t < 64 }
    ensures { result ≡ cells.seen l.now t }
{
    l[Cell::SEEN + t]
}

// The step of thread t, which is able to move. Where its row is refused both locks stand for what they did, the call
// is drawn, and the sets are the caller's still.
pub fn next_step(
    z: Sizes,
    calls: &Calls,
    heads: &mut [u16; 64],
    locks: &mut Locks,
    t: usize,
    at: Sets,
) -> Result<Step, Refusal>
    requires { Steppable z calls.now.orders.now calls.now.later.now heads.old locks.old t }
    ensures { Stepped z calls.now.orders.now calls.now.later.now heads.old heads.new
        locks.old locks.new t at result }
{
    let order = calls.draw(heads, &locks[0], t);
    let hand = seen_by(&locks[0], t);
    let entry = row(z, locks, t, order)?;
    let wants = calls.has(call_of(heads, t));
    let wanting = at.wanting_after(t, order, wants);
    let moves = able_in(pc_of(&locks[0], t), wants);
    let able = at.able_after(woken_by(entry.kind, hand), wanting, t, moves);
    let sets = Sets { able, wanting };
    Ok(Step { order, sets })
}
