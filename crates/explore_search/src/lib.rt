// Complete exploration of one lock, for small sizes: every state that rows lead to from the fresh lock, breadth first,
// in memory that the caller lends. Where the answer is Ok the states found are all there are, for schedules of any
// length (specs/Search `Explores`); so that a state of some kind is not among them is a theorem.
//
// The search is that of `explore_subject`, and what it says of a machine is said here of the lock's own definitions.
#![tactic(auto)]

ghost use Rattle.explore_subject.specs.Search.{figures};
ghost use Rattle.explore_search.specs.Search.{sizes_for, Explores};

use explore_subject::Explored;

// The exploration of a lock of N nodes with fan-out F and T threads: `st` is the store, eight numbers for each state,
// and `ix`, which is cleared first, the index, which should have some twice as many numbers as there are states.
pub fn explore(nodes: usize, fan: usize, threads: usize, st: &mut [u64], ix: &mut [u64]) -> Explored
    ensures { Explores (sizes_for nodes fan threads) st.new (figures result) }
{
    explore_subject::explore(nodes, fan, threads, st, ix)
}
