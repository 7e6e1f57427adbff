// The functions that C and Rust link to explore a lock.
#![tactic(auto)]

ghost use Rattle.explore_search.specs.Search.{sizes_for, Explores};
ghost use Rattle.explore_path.specs.Schedule.{Schedules};

// Explores a lock of so many nodes, fan-out and threads. Gives the answer, and sets the number of states found and the
// depth of the deepest. The store has eight numbers for each state; the index should have two.
#[unsafe(no_mangle)]
pub extern "C" fn explore_lock(
    nodes: usize,
    fan: usize,
    threads: usize,
    store: &mut [u64],
    index: &mut [u64],
    states: &mut u64,
    depth: &mut u64,
) -> usize
    ensures { Explores (sizes_for nodes fan threads) store.new
        (record { answer = result; count = states.new; depth = depth.new }) }
{
    let e = explore_search::explore(nodes, fan, threads, store, index);
    *states = e.count as u64;
    *depth = e.depth;
    e.number() as usize
}

// Writes the schedule file of a state of the store, and gives its length; or writes nothing, and gives 0: a size is out
// of range, the store has no such state, it has more than 4,096 rows, or the buffer is shorter than its file.
#[unsafe(no_mangle)]
pub extern "C" fn explore_schedule(
    nodes: usize,
    fan: usize,
    threads: usize,
    store: &[u64],
    state: usize,
    schedule: &mut [u8],
) -> usize
    ensures { Schedules nodes fan threads store.now state schedule.old
        schedule.new result }
{
    explore_path::schedule_of(nodes, fan, threads, store, state, schedule).unwrap_or(0)
}
