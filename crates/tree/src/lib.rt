// The rows of a read-lock and of an unlock by a reader, in place: arriving in the tree and departing from it. A
// function for each, as in the crate `writers`; where the thread goes on to is in the crate `next_row`. The crate
// `execute` calls them, and has what they ask from the fact that rows have led to the lock.
#![tactic(auto)]

ghost use Rattle.std.specs.Prelude.{◌<◌};
ghost use Rattle.lock.specs.declared.Phase.TheVariants.{Look, Enter, Climb, ClimbSwap, Descend, AgainSwap, Depart};
ghost use Rattle.lock.specs.declared.Phase.TheVariants.{DepartSwap, Leave, LeaveSwap};
ghost use Rattle.cells.specs.View.{word_of, node, route, below, seen};
ghost use Rattle.rows.specs.Outcome.{then_of, Departs, At, AtNode, Makes};

use cells::{Cell, Lock, Packed, Pc, goes_by};
use lock::{Entry, Sizes};
use next_row::{
    after_arrival, after_climb, after_depart, after_departure, after_look, after_settle,
};
use rows::{did, failed, lowered, lowered_direct, reads, swapped, tries_again};

// ---- read-lock by n

pub fn look(z: Sizes, l: &mut Lock, t: usize) -> Entry
    requires { At l.old t }
    ensures { Makes z t (Look (route l.old t)) l.old l.new result }
{
    let v = l[Cell::ROOT];
    let n = l[Cell::ROUTE + t];
    after_look(l, t, n, v);
    did(Entry::READ, Entry::ROOT)
}

pub fn enter(z: Sizes, l: &mut Lock, t: usize) -> Entry
    requires { At l.old t }
    ensures { Makes z t (Enter (word_of (seen l.old t))) l.old l.new result }
{
    let v = l[Cell::ROOT];
    let old = l[Cell::SEEN + t];
    if v == old {
        goes_by(l, t, Pc::READING, 0);
        swapped(l, Cell::ROOT, v + Packed::DIRECT)
    } else {
        after_look(l, t, 0, v);
        failed(l, t, Cell::ROOT)
    }
}

// ---- arrive at c

// Kept: `0 < z.fan` is a clause of these rows. The sizes have no such invariant, since `file::sizes_of` gives those of any
// file, before they are checked.

pub fn climb(z: Sizes, l: &mut Lock, t: usize) -> Entry
    requires { (AtNode l.old t) × (0 < z.fan) }
    ensures { Makes z t
        (Climb (node l.old t) (route l.old t)) l.old l.new result }
{
    let c = l[Cell::NODE + t] as usize;
    let v = l[c];
    after_climb(z.fan, l, t, v);
    did(Entry::READ, c as u8)
}

pub fn climb_swap(z: Sizes, l: &mut Lock, t: usize) -> Entry
    requires { (AtNode l.old t) × (0 < z.fan) }
    ensures { Makes z t (ClimbSwap (node l.old t)
        (route l.old t) (word_of (seen l.old t))) l.old l.new result }
{
    let c = l[Cell::NODE + t] as usize;
    let v = l[c];
    let old = l[Cell::SEEN + t];
    if v == old {
        after_arrival(z.fan, l, t, c);
        swapped(l, c, v + Packed::TREE)
    } else {
        after_climb(z.fan, l, t, v);
        failed(l, t, c)
    }
}

// From the 0 read on the way up, with no new read.
pub fn descend(z: Sizes, l: &mut Lock, t: usize) -> Entry
    requires { (AtNode l.old t) × (0 < z.fan) }
    ensures { Makes z t
        (Descend (node l.old t) (route l.old t)) l.old l.new result }
{
    let c = l[Cell::NODE + t] as usize;
    if l[c] == Packed::OPEN {
        after_arrival(z.fan, l, t, c);
        swapped(l, c, Packed::TREE)
    } else {
        tries_again(l, t, c, Pc::AGAIN_SWAP)
    }
}

pub fn again_swap(z: Sizes, l: &mut Lock, t: usize) -> Entry
    requires { (AtNode l.old t) × (0 < z.fan) }
    ensures { Makes z t (AgainSwap (node l.old t)
        (route l.old t) (word_of (seen l.old t))) l.old l.new result }
{
    let c = l[Cell::NODE + t] as usize;
    let v = l[c];
    let old = l[Cell::SEEN + t];
    if v == old {
        after_settle(z.fan, l, t, c, old);
        swapped(l, c, v + Packed::TREE)
    } else {
        tries_again(l, t, c, Pc::AGAIN_SWAP)
    }
}

// ---- depart from c: `pc` is that of the departure's read, DEPART where it ends an unlock, OWED inside an arrival,
// TRADED inside an upgrade

pub fn depart(z: Sizes, l: &mut Lock, t: usize, pc: u64) -> Entry
    requires { (AtNode l.old t) × (Departs pc) }
    ensures { Makes z t (Depart (node l.old t)
        (then_of pc (route l.old t) (below l.old t))) l.old l.new result }
{
    let c = l[Cell::NODE + t] as usize;
    reads(l, t, c, pc + 1)
}

pub fn depart_swap(z: Sizes, l: &mut Lock, t: usize, pc: u64) -> Entry
    requires { (AtNode l.old t) × (0 < z.fan) × (Departs pc) }
    ensures { Makes z t (DepartSwap (node l.old t) (then_of pc (route l.old t)
        (below l.old t)) (word_of (seen l.old t))) l.old l.new result }
{
    let c = l[Cell::NODE + t] as usize;
    let old = l[Cell::SEEN + t];
    if l[c] == old {
        let new = lowered(old);
        after_depart(z.fan, l, t, pc, c, new);
        swapped(l, c, new)
    } else {
        tries_again(l, t, c, pc + 1)
    }
}

// ---- depart directly, with ticket 0

pub fn leave(z: Sizes, l: &mut Lock, t: usize) -> Entry
    requires { At l.old t }
    ensures { Makes z t Leave l.old l.new result }
{
    reads(l, t, Cell::ROOT, Pc::LEAVE_SWAP)
}

pub fn leave_swap(z: Sizes, l: &mut Lock, t: usize) -> Entry
    requires { (At l.old t) × (0 < z.fan) }
    ensures { Makes z t (LeaveSwap (word_of (seen l.old t))) l.old l.new result }
{
    let old = l[Cell::SEEN + t];
    if l[Cell::ROOT] == old {
        let new = lowered_direct(old);
        after_departure(z.fan, l, t, Pc::DEPART, new == Packed::CLOSED);
        swapped(l, Cell::ROOT, new)
    } else {
        tries_again(l, t, Cell::ROOT, Pc::LEAVE_SWAP)
    }
}
