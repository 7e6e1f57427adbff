// The lock in place: one array of numbers that the caller lends. Here are its layout and the stores into a thread's
// cells, a word and the mutex; those into the queue are the crate `queue`, and many threads at once the crate `waking`.
// Each changes a few numbers, and its contract says which state of the definitions the array then stands for
// (specs/View).
//
// The functions ask that the array is well formed (`Shaped`), that a thread's number is below 64, and so on. The crates
// `execute` and `plain_engine` have all this from the fact that rows, or calls, have led to the lock from the fresh one.
#![tactic(auto)]

ghost use Rattle.std.specs.Prelude.{◌≡◌, ◌≤◌, ◌<◌, length};
ghost use Rattle.lock.specs.Bound.{most_steps};
ghost use Rattle.lock.specs.Word.{is_closed, is_zero, is_sole};
ghost use Rattle.lock.specs.State.{goes, fails, thread_at, with_word, with_mutex};
ghost use Rattle.cells.specs.Kept.{holder};
ghost use Rattle.cells.specs.View.{word_of, phase_of, node, route, below, seen, state_of, Shaped, Leaves};
ghost use Rattle.cells.specs.View.{fresh_thread_cells, with_thread_cells, fresh_cells};

// The lock: 512 numbers, behind a reference wherever they go.
// Kept: an array, and no struct with the threads in a field. `bench::run_file` and its like take any two such arrays of
// their callers, and the claim of a wake speaks of any array's places (`waking` specs/Waking `Wakes`).
pub type Lock = [u64; 512];

// Where the array has what. The words are first, word w at place w.
// Kept: numbers, since they are places of the array.
pub struct Cell {}

impl Cell {
    // The root is word 0.
    pub const ROOT: usize = 0;

    // The thread that has the mutex, or FREE.
    pub const MUTEX: usize = 32;

    // The set of queued readers.
    pub const READERS: usize = 33;

    // The place of the ring at which the writer is who has waited longest, and the number of queued writers.
    pub const FIRST: usize = 34;

    pub const WRITERS: usize = 35;

    // The ring of the queued writers' numbers.
    pub const RING: usize = 64;

    // Columns with a number for each thread: its program counter; the node it is at; the route of its read-lock, which
    // is its ticket once it reads; the node below, to which a departure inside an arrival comes back; the word seen
    // last, or the set in hand; its failures.
    pub const PC: usize = 128;

    pub const NODE: usize = 192;

    pub const ROUTE: usize = 256;

    pub const BELOW: usize = 320;

    pub const SEEN: usize = 384;

    pub const FAILURES: usize = 448;

    // No thread has the mutex.
    pub const FREE: u64 = 64;

    // The ring's places.
    pub const PLACES: u64 = 64;
}

// A word as one number, so that a swap is one comparison: 1 where it is closed, twice the direct arrivals, of which
// there are fewer than 65,536, and behind them the arrivals from nodes, which are all that a node counts.
// Kept: one number and no struct, since the array has it at one place, and a row compares it at once.
pub struct Packed {}

impl Packed {
    // (0, 0, open) and (0, 0, closed).
    pub const OPEN: u64 = 0;

    pub const CLOSED: u64 = 1;

    // One direct arrival, and one by the tree.
    pub const DIRECT: u64 = 2;

    pub const TREE: u64 = 131072;

    // The direct arrivals are counted below this.
    pub const COUNTS: u64 = 65536;
}

// The parts of a word that is one number.
pub fn is_closed(v: u64) -> bool
    ensures { result ≡ is_closed (word_of v) }
{
    v % 2 == Packed::CLOSED
}

pub fn direct_of(v: u64) -> u64
    ensures { result ≡ (word_of v).direct }
{
    v / Packed::DIRECT % Packed::COUNTS
}

pub fn tree_of(v: u64) -> u64
    ensures { result ≡ (word_of v).tree }
{
    v / Packed::TREE
}

// Are both counts 0?
pub fn is_zero(v: u64) -> bool
    ensures { result ≡ is_zero (word_of v) }
{
    v / Packed::DIRECT == 0
}

// Did whoever arrived directly do so alone: direct 1 and tree 0?
pub fn is_sole(v: u64) -> bool
    ensures { result ≡ is_sole (word_of v) }
{
    v / Packed::DIRECT == 1
}

// The rows of the pseudocode by number: what a thread's PC has. Each is a phase of the definitions (specs/View
// `phases`); OWED and OWED_SWAP are a departure inside an arrival, TRADED and TRADED_SWAP one inside an upgrade. The
// rows that take the mutex come last, so that one comparison finds those that it holds up.
// Kept: numbers and no enum. They stand in the array, where a lent one may have any number; `phases` has them by place;
// and a row of an enum would begin with a conversion that can fail.
pub struct Pc {}

impl Pc {
    pub const IDLE: u64 = 0;

    pub const WRITING: u64 = 1;

    pub const READING: u64 = 2;

    pub const LOOK: u64 = 3;

    pub const ENTER: u64 = 4;

    pub const CLIMB: u64 = 5;

    pub const CLIMB_SWAP: u64 = 6;

    pub const DESCEND: u64 = 7;

    pub const AGAIN_SWAP: u64 = 8;

    pub const DEPART: u64 = 9;

    pub const DEPART_SWAP: u64 = 10;

    pub const OWED: u64 = 11;

    pub const OWED_SWAP: u64 = 12;

    pub const TRADED: u64 = 13;

    pub const TRADED_SWAP: u64 = 14;

    pub const LEAVE: u64 = 15;

    pub const LEAVE_SWAP: u64 = 16;

    pub const QUEUE_READ: u64 = 17;

    pub const QUEUE_BACK: u64 = 18;

    pub const QUEUE_JOIN: u64 = 19;

    pub const SLEEP: u64 = 20;

    pub const WRITE_LOOK: u64 = 21;

    pub const WRITE_ENTER: u64 = 22;

    pub const WRITE_READ: u64 = 23;

    pub const WRITE_CLOSE: u64 = 24;

    pub const WRITE_HOLD: u64 = 25;

    pub const WRITE_JOIN: u64 = 26;

    pub const UNLOCK_NEXT: u64 = 27;

    pub const UNLOCK_OPEN: u64 = 28;

    pub const UNLOCK_END: u64 = 29;

    pub const UNLOCK_STORE: u64 = 30;

    pub const LAST_NEXT: u64 = 31;

    pub const FREE_READERS: u64 = 32;

    pub const WAKE_READERS: u64 = 33;

    pub const FREE_WRITER: u64 = 34;

    pub const WAKE_WRITER: u64 = 35;

    pub const TRADE: u64 = 36;

    pub const TRADE_SWAP: u64 = 37;

    pub const UPGRADE_LOOK: u64 = 38;

    pub const UPGRADE_SWAP: u64 = 39;

    pub const DOWNGRADE_NEXT: u64 = 40;

    pub const DOWNGRADE_STORE: u64 = 41;

    pub const DOWNGRADE_FREE: u64 = 42;

    pub const DOWNGRADE_WAKE: u64 = 43;

    pub const QUEUE_TAKE: u64 = 44;

    pub const WRITE_TAKE: u64 = 45;

    pub const UNLOCK_TAKE: u64 = 46;

    pub const LAST_TAKE: u64 = 47;

    pub const DOWNGRADE_TAKE: u64 = 48;

    pub const ASLEEP: u64 = 49;
}

// ---- the fresh lock

// What the lock has of a thread: a number in each column.
#[derive(Clone, Copy)]
pub struct ThreadCells {
    pub pc: u64,
    pub node: u64,
    pub route: u64,
    pub below: u64,
    pub seen: u64,
    pub failures: u64,
}

impl ThreadCells {
    // "every thread idle without failures"
    pub fn fresh() -> Self
        ensures { result ≡ fresh_thread_cells }
    {
        ThreadCells {
            pc: Pc::IDLE,
            node: 0,
            route: 0,
            below: 0,
            seen: 0,
            failures: 0,
        }
    }
}

// Every number of thread t.
fn put_thread(l: &mut Lock, t: usize, me: ThreadCells)
    requires { (length l.old ≡ 512) × (t < 64) }
    ensures { l.new ≡ with_thread_cells l.old t me }
{
    l[Cell::PC + t] = me.pc;
    l[Cell::NODE + t] = me.node;
    l[Cell::ROUTE + t] = me.route;
    l[Cell::BELOW + t] = me.below;
    l[Cell::SEEN + t] = me.seen;
    l[Cell::FAILURES + t] = me.failures;
}

// "Root (count 0, open), all nodes 0, mutex free, queue empty", and each of the 64 threads fresh: every number is set.
pub fn fresh() -> Lock
    ensures { result ≡ fresh_cells }
{
    let idle = ThreadCells::fresh();
    let mut l: Lock = [0; 512];
    l[Cell::MUTEX] = Cell::FREE;
    for t in 0..64 {
        put_thread(&mut l, t, idle);
    }
    l
}

// ---- a thread's failures

// The swaps of thread t that failed, which the sheet prints; 0 of a thread that there is not.
pub fn failures_of(l: &Lock, t: usize) -> u64
    ensures { result ≡ (thread_at (state_of l.now) t).failures }
{
    if 64 <= t { 0 } else { l[Cell::FAILURES + t] }
}

// ---- a thread goes on

// Kept: the lock and a thread's number as two parameters, with `Shaped` and `t < 64` as clauses, here and in the crates
// above. Three types for them were tried. A struct that has both owes two clauses more in each method, that the
// reference and the thread stay. A number with a ghost field saves one `t < 64` in a clause that then writes `.number`
// five times. With a model the clauses stay as they are, but a proof knows the bound only where it reads the number: a
// row that counts a failed swap without reading it needs the clause all the same.

// To a program counter, with what it remembers.
pub fn goes_to(l: &mut Lock, t: usize, pc: u64)
    requires { (Shaped l.old) × (t < 64) }
    ensures { Leaves l.new (goes (state_of l.old) t (phase_of pc
        (node l.old t) (route l.old t) (below l.old t) (seen l.old t))) }
{
    l[Cell::PC + t] = pc;
}

// To a program counter, with a word that it saw or a set that it took.
pub fn goes_with(l: &mut Lock, t: usize, pc: u64, v: u64)
    requires { (Shaped l.old) × (t < 64) }
    ensures { Leaves l.new (goes (state_of l.old) t
        (phase_of pc (node l.old t) (route l.old t) (below l.old t) v)) }
{
    l[Cell::PC + t] = pc;
    l[Cell::SEEN + t] = v;
}

// To a program counter at the node c.
pub fn goes_at(l: &mut Lock, t: usize, pc: u64, c: u64)
    requires { (Shaped l.old) × (t < 64) }
    ensures { Leaves l.new (goes (state_of l.old) t
        (phase_of pc c (route l.old t) (below l.old t) (seen l.old t))) }
{
    l[Cell::PC + t] = pc;
    l[Cell::NODE + t] = c;
}

// To a program counter of a call by the route n.
pub fn goes_by(l: &mut Lock, t: usize, pc: u64, n: u64)
    requires { (Shaped l.old) × (t < 64) }
    ensures { Leaves l.new (goes (state_of l.old) t
        (phase_of pc (node l.old t) n (below l.old t) (seen l.old t))) }
{
    l[Cell::PC + t] = pc;
    l[Cell::ROUTE + t] = n;
}

// To a program counter at the node c, to come back to the node b below.
pub fn goes_under(l: &mut Lock, t: usize, pc: u64, c: u64, b: u64)
    requires { (Shaped l.old) × (t < 64) }
    ensures { Leaves l.new
        (goes (state_of l.old) t (phase_of pc c (route l.old t) b (seen l.old t))) }
{
    l[Cell::PC + t] = pc;
    l[Cell::NODE + t] = c;
    l[Cell::BELOW + t] = b;
}

// A swap of thread t failed: one failure more.
pub fn fails(l: &mut Lock, t: usize)
    requires { (Shaped l.old) × (t < 64) × ((thread_at (state_of l.old) t).failures ≤ most_steps) }
    ensures { Leaves l.new
        (fails (state_of l.old) t (thread_at (state_of l.old) t).phase) }
{
    l[Cell::FAILURES + t] = l[Cell::FAILURES + t] + 1;
}

// ---- words and mutex

pub fn write_word(l: &mut Lock, w: usize, v: u64)
    requires { (Shaped l.old) × (w < 32) }
    ensures { Leaves l.new (with_word (state_of l.old) w (word_of v)) }
{
    l[w] = v;
}

pub fn write_mutex(l: &mut Lock, m: u64)
    requires { Shaped l.old }
    ensures { Leaves l.new (with_mutex (state_of l.old) (holder m)) }
{
    l[Cell::MUTEX] = m;
}
