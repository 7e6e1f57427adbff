// A site at lent turns: specs/ has the site file, its run, what the run costs and the sheet of it; proofs/ that the run
// is the bench's run of the rows that its turns make.
#![tactic(auto)]

// Locks of one kind: how many were got, the rows that threads waited for them in all, and the most that one waited.
#[derive(Clone, Copy, Default)]
pub struct Waits {
    pub got: u64,
    pub waited: u64,
    pub longest: u64,
}

// What a run costs: turns passed over, spent holding and thinking; rows, and of these failed swaps, those on the root
// word and those held up; calls finished; and the waits for write-locks and for read-locks.
#[derive(Clone, Copy, Default)]
pub struct Tally {
    pub passed: u64,
    pub holding: u64,
    pub thinking: u64,
    pub rows: u64,
    pub failed: u64,
    pub root: u64,
    pub held: u64,
    pub finished: u64,
    pub writers: Waits,
    pub readers: Waits,
}
