// The function that C and Rust link to explore two locks.
#![tactic(auto)]

ghost use Rattle.std.specs.Prelude.{not, eqb};
ghost use Rattle.explore_subject.specs.Search.{sizes_for};
ghost use Rattle.explore_stuck.specs.Stuck.{ExploresLocks};

// Explores two locks over one set of threads, each of so many nodes and fan-out; where `ordered` is not 0, with the rows
// that are in lock order alone. A state has eight numbers in each store; the index should have two. Gives the answer,
// and sets the number of states found, the depth of the deepest, how many of them are stuck, and the number of the first
// of those, which is the number of states where none is. The schedule of a state is in the first store.
#[unsafe(no_mangle)]
pub extern "C" fn explore_locks(
    nodes: usize,
    fan: usize,
    threads: usize,
    ordered: usize,
    store: &mut [u64],
    second: &mut [u64],
    index: &mut [u64],
    states: &mut u64,
    depth: &mut u64,
    stuck: &mut u64,
    first: &mut u64,
) -> usize
    ensures { ExploresLocks (not (eqb ordered 0)) (sizes_for nodes fan threads)
        (store.new, second.new)
        (record {
          answer = result;
          count = states.new;
          depth = depth.new;
          stuck = stuck.new;
          first = first.new;
        }) }
{
    let found = explore_stuck::explore_both(
        nodes,
        fan,
        threads,
        ordered != 0,
        store,
        second,
        index,
    );
    let explored = found.explored;
    *states = explored.count as u64;
    *depth = explored.depth;
    *stuck = found.blocks.count as u64;
    *first = found.blocks.first.unwrap_or(explored.count) as u64;
    explored.number() as usize
}
