// Explores small locks: each argument names a file whose first three bytes are N, F and T. There is room for 8,192
// states. For each it writes `run` and the name, the answer, the number of states and the depth, and how many bytes the
// schedule file of the state in the middle has.
#![tactic(auto)]

use arguments::{read_argument, report, write_run};
use explore_path::schedule_of;
use explore_search::explore;
use file::sizes_of;
use std::{env, io};

fn main(rt: HostRuntime) -> io::Result<()> {
    let mut name = [0u8; 4096];
    let mut file = [0u8; 3];
    // Kept: the loop stands here, since no contract can say what arguments there are: only a `main` promises nothing.
    for i in 1..env::args(&rt)?.len() {
        let Some(given) = read_argument(&rt, i, &mut name, &mut file) else {
            continue;
        };
        let z = sizes_of(&file[0..given.length]);
        let mut store = [0u64; 65536];
        let mut index = [0u64; 16384];
        let e = explore(z.nodes, z.fan, z.threads, &mut store, &mut index);
        let mut schedule = [0u8; 8197];
        let long = schedule_of(
            z.nodes,
            z.fan,
            z.threads,
            &store,
            e.count / 2,
            &mut schedule,
        )
        .unwrap_or(0);
        let answer = e.number();
        let states = e.count;
        let depth = e.depth;
        let written = write_run(&mut rt.stdout(), &name[0..given.named], b"").and_then(|()| {
            println!(rt; "answer {answer} states {states} depth {depth} schedule {long}")
        });
        report(&rt, "explore_runs", written)?;
    }
    Ok(())
}
