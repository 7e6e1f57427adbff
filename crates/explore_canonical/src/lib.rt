// One form for each state of a lock: numbers that no row goes by become 0, and the ring of writers begins at place 0. So
// locks that stand for the same state are the same numbers.
#![tactic(auto)]

ghost use Rattle.std.specs.Prelude.{◌≡◌, ◌<◌, ◌≤◌};
ghost use Rattle.cells.specs.Kept.{after};
ghost use Rattle.cells.specs.View.{state_of, Shaped, Leaves};
ghost use Rattle.explore_canonical.specs.Form.{uses_at, kept, ring_or};

use cells::{Cell, Lock};

// Which of its cells a thread at a program counter uses: 1 the node, 2 the route, 4 the node below, 8 the word seen.
// Kept: four flags in a number, since specs/Form `used_cells` has these numbers, and names for sets are no plainer.
const USES: [u8; 50] = [
    0, 0, 2, 2, 8, 3, 11, 3, 11, 1, 9, 7, 15, 1, 9, 0, 8, 2, 2, 0, 0, 0, 0, 0, 8, 0, 0, 0, 0, 0, 8,
    0, 8, 8, 8, 8, 2, 10, 0, 8, 0, 8, 8, 8, 2, 0, 0, 0, 0, 0,
];

fn uses(pc: u64) -> u8
    ensures { result ≡ uses_at pc }
{
    USES.get(pc as usize).copied().unwrap_or(0)
}

// A number that is used, or 0.
fn keep(used: u8, x: u64) -> u64
    ensures { result ≡ kept used x }
{
    if used == 0 { 0 } else { x }
}

// The cells that thread t does not use become 0.
fn tidy_thread(l: &mut Lock, t: usize)
    requires { (Shaped l.old) × (t < 64) }
    ensures { Leaves l.new (state_of l.old) }
{
    let u = uses(l[Cell::PC + t]);
    let node = keep(u % 2, l[Cell::NODE + t]);
    let route = keep(u / 2 % 2, l[Cell::ROUTE + t]);
    let below = keep(u / 4 % 2, l[Cell::BELOW + t]);
    let seen = keep(u / 8 % 2, l[Cell::SEEN + t]);
    l[Cell::NODE + t] = node;
    l[Cell::ROUTE + t] = route;
    l[Cell::BELOW + t] = below;
    l[Cell::SEEN + t] = seen;
}

// The cells that the first n threads do not use become 0.
fn tidy(l: &mut Lock, n: usize)
    requires { (Shaped l.old) × (n ≤ 64) }
    ensures { Leaves l.new (state_of l.old) }
{
    for t in 0..n {
        tidy_thread(l, t);
    }
}

// The place of the ring behind a place.
fn next_place(i: usize) -> usize
    requires { i < 64 }
    ensures { (result ≡ after i) × (result < 64) }
{
    if i == 63 { 0 } else { i + 1 }
}

// The number of place i of the ring, or 0 behind the last writer.
fn ring_at(l: &Lock, i: usize, k: usize, n: u64) -> u64
    requires { i < 64 }
    ensures { result ≡ ring_or l.now i k n }
{
    if (k as u64) < n { l[Cell::RING + i] } else { 0 }
}

// The ring is turned so that the writer who has waited longest is at place 0; places behind the last one are 0.
fn straighten(l: &mut Lock)
    requires { Shaped l.old }
    ensures { Leaves l.new (state_of l.old) }
{
    let old = *l;
    let n = old[Cell::WRITERS];
    let mut at = old[Cell::FIRST] as usize;
    l[Cell::FIRST] = 0;
    for k in 0..64 {
        l[Cell::RING + k] = ring_at(&old, at, k, n);
        at = next_place(at);
    }
}

// The one form of the state: what no row goes by is 0. A ring that begins at place 0 is taken to have no more behind its
// writers.
pub fn normal(l: &mut Lock, threads: usize)
    requires { (Shaped l.old) × (threads ≤ 64) }
    ensures { Leaves l.new (state_of l.old) }
{
    tidy(l, threads);
    if l[Cell::FIRST] != 0 {
        straighten(l);
    }
}
