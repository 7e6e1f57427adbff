// The rows of a call of one lock: `go_on` makes the row at a thread's program counter (order 0).
#![tactic(auto)]

ghost use Rattle.std.specs.Prelude.{◌≡◌, ◌≤◌, Ok};
ghost use Rattle.cells.specs.Layout.{QUEUE-READ};
ghost use Rattle.cells.specs.View.{pc, phase_at};
ghost use Rattle.rows.specs.Outcome.{At, Makes, Tried};
ghost use Rattle.step.specs.Reached.{Ready};

use cells::{Cell, Lock, Pc};
use convert::{
    downgrade_next, downgrade_release, downgrade_store, downgrade_wake, upgrade_enter,
    upgrade_look, upgrade_swap, upgrade_trade,
};
use lock::{Entry, Refusal, Sizes};
use rows::{did, releases, takes};
use tree::{
    again_swap, climb, climb_swap, depart, depart_swap, descend, enter, leave, leave_swap, look,
};
use writers::{
    last_next, queue_join, queue_read, unlock_next, unlock_open, unlock_store, wakes, write_close,
    write_enter, write_join, write_look, write_read,
};

// A row that is taken gives its entry. The two bytes are copied one by one: as a whole they would go through the loop
// over rows as one number of 16 bits, which costs each row (docs/BENCHMARK.md). This function and the two below are put
// into the loop before the compiler looks at each by itself; docs/DESIGN-PASS.md has what that was seen to change.
#[inline(always)]
fn taken(entry: &Entry) -> Result<Entry, Refusal>
    ensures { result ≡ Ok entry.now }
{
    Ok(Entry {
        kind: entry.kind,
        word: entry.word,
    })
}

// The rows behind those of the tree: the queue, the writers, the hand-over, the conversions. They are apart because the
// compiler takes a call that is one of some forty equally likely ones for a rare one, and leaves it as a call in the
// loop that runs the rows (docs/BENCHMARK.md).
// Kept, here and in `go_on`: a `match` on numbers, which the array has (`cells::Pc`), and whose last arm is the sleeper's.
// A table of functions or closures would be called through a pointer, once for each row, where the loop has them inline.
#[inline(always)]
#[tactic(auto, unfolding(lock::specs::Call::op))]
fn past_tree(z: Sizes, l: &mut Lock, t: usize) -> Result<Entry, Refusal>
    requires { (Ready z l.old t) × (At l.old t) × (QUEUE-READ ≤ pc l.old t) }
    ensures { Tried z t (phase_at l.old t) l.old l.new result }
{
    let pc = l[Cell::PC + t];
    match pc {
        Pc::QUEUE_READ => taken(&queue_read(z, l, t)),
        Pc::QUEUE_BACK => taken(&releases(z, l, t, Pc::LOOK)),
        Pc::QUEUE_JOIN => taken(&queue_join(z, l, t)),
        Pc::SLEEP => taken(&releases(z, l, t, Pc::ASLEEP)),
        Pc::WRITE_LOOK => taken(&write_look(z, l, t)),
        Pc::WRITE_ENTER => taken(&write_enter(z, l, t)),
        Pc::WRITE_READ => taken(&write_read(z, l, t)),
        Pc::WRITE_CLOSE => taken(&write_close(z, l, t)),
        Pc::WRITE_HOLD => taken(&releases(z, l, t, Pc::WRITING)),
        Pc::WRITE_JOIN => taken(&write_join(z, l, t)),
        Pc::UNLOCK_NEXT => taken(&unlock_next(z, l, t)),
        Pc::UNLOCK_OPEN => taken(&unlock_open(z, l, t)),
        Pc::UNLOCK_END => taken(&releases(z, l, t, Pc::IDLE)),
        Pc::UNLOCK_STORE => taken(&unlock_store(z, l, t)),
        Pc::LAST_NEXT => taken(&last_next(z, l, t)),
        Pc::FREE_READERS => taken(&releases(z, l, t, Pc::WAKE_READERS)),
        Pc::WAKE_READERS => taken(&wakes(z, l, t, Pc::READING)),
        Pc::FREE_WRITER => taken(&releases(z, l, t, Pc::WAKE_WRITER)),
        Pc::WAKE_WRITER => taken(&wakes(z, l, t, Pc::WRITING)),
        Pc::TRADE => taken(&upgrade_trade(z, l, t)),
        Pc::TRADE_SWAP => taken(&upgrade_enter(z, l, t)),
        Pc::UPGRADE_LOOK => taken(&upgrade_look(z, l, t)),
        Pc::UPGRADE_SWAP => taken(&upgrade_swap(z, l, t)),
        Pc::DOWNGRADE_NEXT => taken(&downgrade_next(z, l, t)),
        Pc::DOWNGRADE_STORE => taken(&downgrade_store(z, l, t)),
        Pc::DOWNGRADE_FREE => taken(&downgrade_release(z, l, t)),
        Pc::DOWNGRADE_WAKE => taken(&downgrade_wake(z, l, t)),
        Pc::QUEUE_TAKE => taken(&takes(z, l, t, Pc::QUEUE_READ)),
        Pc::WRITE_TAKE => taken(&takes(z, l, t, Pc::WRITE_READ)),
        Pc::UNLOCK_TAKE => taken(&takes(z, l, t, Pc::UNLOCK_NEXT)),
        Pc::LAST_TAKE => taken(&takes(z, l, t, Pc::LAST_NEXT)),
        Pc::DOWNGRADE_TAKE => taken(&takes(z, l, t, Pc::DOWNGRADE_NEXT)),
        _ => Ok(did(Entry::HELD_UP, Entry::MUTEX)),
    }
}

// Order 0: the next row of thread t. Rows that the mutex holds up are found first, by one comparison.
#[inline(always)]
pub fn go_on(z: Sizes, l: &mut Lock, t: usize) -> Result<Entry, Refusal>
    requires { Ready z l.old t }
    ensures { Tried z t (phase_at l.old t) l.old l.new result }
{
    let pc = l[Cell::PC + t];
    if Pc::QUEUE_TAKE <= pc && l[Cell::MUTEX] != Cell::FREE {
        return Ok(did(Entry::HELD_UP, Entry::MUTEX));
    }
    match pc {
        Pc::IDLE => Err(Refusal::Unsuitable),
        Pc::WRITING => Err(Refusal::Unsuitable),
        Pc::READING => Err(Refusal::Unsuitable),
        Pc::LOOK => taken(&look(z, l, t)),
        Pc::ENTER => taken(&enter(z, l, t)),
        Pc::CLIMB => taken(&climb(z, l, t)),
        Pc::CLIMB_SWAP => taken(&climb_swap(z, l, t)),
        Pc::DESCEND => taken(&descend(z, l, t)),
        Pc::AGAIN_SWAP => taken(&again_swap(z, l, t)),
        Pc::DEPART => taken(&depart(z, l, t, Pc::DEPART)),
        Pc::DEPART_SWAP => taken(&depart_swap(z, l, t, Pc::DEPART)),
        Pc::OWED => taken(&depart(z, l, t, Pc::OWED)),
        Pc::OWED_SWAP => taken(&depart_swap(z, l, t, Pc::OWED)),
        Pc::TRADED => taken(&depart(z, l, t, Pc::TRADED)),
        Pc::TRADED_SWAP => taken(&depart_swap(z, l, t, Pc::TRADED)),
        Pc::LEAVE => taken(&leave(z, l, t)),
        Pc::LEAVE_SWAP => taken(&leave_swap(z, l, t)),
        _ => past_tree(z, l, t),
    }
}
