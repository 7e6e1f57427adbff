// The next row of a thread in the tree, in place: where it goes on to after a read, an arrival or a departure. The rows of
// the crate `tree` end here; the definitions have the same (`lock` specs/Call `looked` to `departed`).
#![tactic(auto)]

ghost use Rattle.std.specs.Prelude.{◌≡◌, ◌≢◌, ◌<◌};
ghost use Rattle.lock.specs.Tree.{parent, toward};
ghost use Rattle.lock.specs.Call.{looked, climbed, arrived, settled, ended, departed};
ghost use Rattle.lock.specs.State.{goes};
ghost use Rattle.cells.specs.View.{word_of, node, route, below, state_of, Shaped, Leaves};
ghost use Rattle.rows.specs.Outcome.{then_of, Departs};

use cells::{
    Cell, Lock, Packed, Pc, goes_at, goes_by, goes_to, goes_under, goes_with, is_closed, is_zero,
};

// ---- the path to the root

fn parent_of(f: usize, n: usize) -> usize
    requires { 0 < f }
    ensures { result ≡ parent f n }
{
    if n == 0 { 0 } else { (n - 1) / f }
}

// The node below c on the path from n to the root.
fn toward_node(f: usize, n: usize, c: usize) -> usize
    requires { 0 < f }
    ensures { result ≡ toward f n c }
{
    let up = parent_of(f, n);
    if up <= c { n } else { toward_node(f, up, c) }
}

// ---- read-lock by n

// The root was found to be v, to lock by n: the thread's route, or the root.
pub fn after_look(l: &mut Lock, t: usize, n: u64, v: u64)
    requires { (Shaped l.old) × (t < 64) × (n ≢ 0 → n ≡ route l.old t) }
    ensures { Leaves l.new (goes (state_of l.old) t (looked n (word_of v))) }
{
    if is_closed(v) {
        goes_by(l, t, Pc::QUEUE_TAKE, n)
    } else if n == 0 {
        goes_with(l, t, Pc::ENTER, v)
    } else {
        goes_at(l, t, Pc::CLIMB, n)
    }
}

// ---- arriving

// The thread's node, above which it has not yet arrived, was found to be v.
pub fn after_climb(f: usize, l: &mut Lock, t: usize, v: u64)
    requires { (0 < f) × (Shaped l.old) × (t < 64) }
    ensures { Leaves l.new (goes (state_of l.old) t
        (climbed f (node l.old t) (route l.old t) (word_of v))) }
{
    let c = l[Cell::NODE + t] as usize;
    if c == 0 && v == Packed::CLOSED {
        goes_to(l, t, Pc::QUEUE_TAKE)
    } else if c != 0 && v == Packed::OPEN {
        let up = parent_of(f, c);
        goes_at(l, t, Pc::CLIMB, up as u64)
    } else {
        goes_with(l, t, Pc::CLIMB_SWAP, v)
    }
}

// The thread has arrived at c.
pub fn after_arrival(f: usize, l: &mut Lock, t: usize, c: usize)
    requires { (0 < f) × (Shaped l.old) × (t < 64) }
    ensures { Leaves l.new
        (goes (state_of l.old) t (arrived f c (route l.old t))) }
{
    let n = l[Cell::ROUTE + t] as usize;
    if c == n {
        goes_to(l, t, Pc::READING)
    } else {
        let next = toward_node(f, n, c);
        goes_at(l, t, Pc::DESCEND, next as u64)
    }
}

// c was swapped from v on the way down.
pub fn after_settle(f: usize, l: &mut Lock, t: usize, c: usize, v: u64)
    requires { (0 < f) × (Shaped l.old) × (t < 64) }
    ensures { Leaves l.new
        (goes (state_of l.old) t (settled f c (route l.old t) (word_of v))) }
{
    if is_zero(v) {
        after_arrival(f, l, t, c)
    } else {
        let up = parent_of(f, c);
        goes_under(l, t, Pc::OWED, up as u64, c as u64)
    }
}

// ---- departing: `pc` is that of the departure's read, DEPART where it ends an unlock, OWED inside an arrival, TRADED
// inside an upgrade

// The departure has ended, as the last at the root or not.
pub fn after_departure(f: usize, l: &mut Lock, t: usize, pc: u64, last: bool)
    requires { (0 < f) × (Shaped l.old) × (t < 64) }
    ensures { Leaves l.new (goes (state_of l.old) t
        (ended f (then_of pc (route l.old t) (below l.old t)) last)) }
{
    if pc == Pc::OWED {
        let b = l[Cell::BELOW + t] as usize;
        after_arrival(f, l, t, b)
    } else if pc == Pc::TRADED {
        goes_to(l, t, Pc::UPGRADE_LOOK)
    } else if last {
        goes_to(l, t, Pc::LAST_TAKE)
    } else {
        goes_to(l, t, Pc::IDLE)
    }
}

// c was swapped to v.
pub fn after_depart(f: usize, l: &mut Lock, t: usize, pc: u64, c: usize, v: u64)
    requires { (0 < f) × (Shaped l.old) × (t < 64) × (Departs pc) }
    ensures { Leaves l.new (goes (state_of l.old) t
        (departed f c (then_of pc (route l.old t) (below l.old t)) (word_of v))) }
{
    if c == 0 {
        after_departure(f, l, t, pc, v == Packed::CLOSED)
    } else if is_zero(v) {
        let up = parent_of(f, c);
        goes_at(l, t, pc, up as u64)
    } else {
        after_departure(f, l, t, pc, false)
    }
}
