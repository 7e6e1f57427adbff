// Complete exploration of two locks, with the states that are stuck: how many, and the first of them, to which the
// schedule is shortest.
#![tactic(auto)]

ghost use Rattle.std.specs.Prelude.{◌≡◌, ◌+◌, ◌*◌, ◌<◌, ◌≤◌, length, unwrap_or, IfSome};
ghost use Rattle.lock.specs.Bound.{steps_before};
ghost use Rattle.turn.specs.Turn.{pair_in, Place};
ghost use Rattle.explore_subject.specs.Search.{OfThread, Small, sizes_for};
ghost use Rattle.explore_pair.specs.Both.{RoomBoth, locks_at, order_in, orders_of, seen_of, names_of};
ghost use Rattle.explore_stuck.specs.Stuck.{Tells, Tested, StuckAt, Decides, Ready, figures_of_locks, ExploresLocks};

use explore_pair::{PairStates, TwoLocks, order_in};
use explore_subject::{Explored, Halt, are_small, search_all};
use lock::{Entry, Sizes};
use turn::{Locks, row};

// How many states are stuck, and the number of the first.
#[derive(Clone, Copy)]
pub struct Blocks {
    pub count: usize,
    pub first: Option<usize>,
}

// What an exploration of two locks came to, and those of its states that are stuck.
#[derive(Clone, Copy)]
pub struct ExploredLocks {
    pub explored: Explored,
    pub blocks: Blocks,
}

// Are all rows of thread t refused or held up? Those change nothing; at another one it stops.
fn stays(z: Sizes, ls: &mut Locks, t: usize) -> bool
    requires { (Place z ls.old steps_before) × (Small z) }
    ensures { Tested z (OfThread (order_in z) (orders_of z) t) (pair_in ls.old) ls.new result }
{
    for k in 0..9 + 2 * z.nodes {
        if let Ok(entry) = row(z, ls, t, order_in(z, k)) {
            if entry.kind != Entry::HELD_UP {
                return false;
            }
        }
    }
    true
}

// Are two locks stuck?
fn is_stuck(z: Sizes, ls: &mut Locks) -> bool
    requires { (Place z ls.old steps_before) × (Small z) }
    ensures { Tells z (pair_in ls.old) result }
{
    for t in 0..z.threads {
        if !stays(z, ls, t) {
            return false;
        }
    }
    true
}

// Is number i stuck?
fn stuck_at(z: Sizes, states: &PairStates<'_>, i: usize) -> bool
    requires { (RoomBoth (seen_of states.now) (i + 1)) × (Place z (locks_at (seen_of states.now) i) steps_before)
        × (Small z) }
    ensures { Tells z (pair_in (locks_at (seen_of states.now) i)) result }
{
    let mut ls: Locks = [[0; 512]; 2];
    states.locks_at(i, &mut ls);
    is_stuck(z, &mut ls)
}

// Which of the first n numbers are stuck?
fn count_stuck(z: Sizes, states: &PairStates<'_>, n: usize) -> Blocks
    requires { (Ready z (seen_of states.now) n) × (Small z) }
    ensures decides { Decides (StuckAt z (seen_of states.now)) n result.count (unwrap_or result.first n) }
    ensures within { IfSome result.first (λ i. i < n) }
{
    let mut count: usize = 0;
    let mut first = None;
    for i in 0..n {
        if stuck_at(z, states, i) {
            count += 1;
            first = Some(first.unwrap_or(i));
        }
    }
    Blocks { count, first }
}

// Two locks explored, and which of the states found are stuck.
fn search_stuck(states: &mut PairStates<'_>, z: TwoLocks) -> ExploredLocks
    requires { Small z.sizes }
    ensures explores { ExploresLocks z.ordered z.sizes (seen_of states.new) (figures_of_locks result) }
    ensures same_references { names_of states.new ≡ names_of states.old }
{
    let explored = search_all(states, z);
    let blocks = count_stuck(z.sizes, states, explored.count);
    ExploredLocks { explored, blocks }
}

// The exploration of two locks of N nodes with fan-out F and T threads, in lock order if that is asked: `st` and `ts`
// are the stores, eight numbers in each for each state, and `ix`, which is cleared first, the index, which should have
// some twice as many numbers as there are states.
pub fn explore_both(
    nodes: usize,
    fan: usize,
    threads: usize,
    ordered: bool,
    st: &mut [u64],
    ts: &mut [u64],
    ix: &mut [u64],
) -> ExploredLocks
    ensures { ExploresLocks ordered (sizes_for nodes fan threads) (st.new, ts.new) (figures_of_locks result) }
{
    if !are_small(nodes, fan, threads) {
        return ExploredLocks {
            explored: Explored::none(Halt::SizeOutOfRange),
            blocks: Blocks {
                count: 0,
                first: None,
            },
        };
    }
    let sizes = Sizes {
        nodes,
        fan,
        threads,
        items: 0,
    };
    let mut states = PairStates {
        first: st,
        second: ts,
        index: ix,
        count: 0,
    };
    search_stuck(&mut states, TwoLocks { sizes, ordered })
}
