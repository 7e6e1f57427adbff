// The rows of a write-lock, of queueing, which a reader does too, and of an unlock that hands the lock over, in place: a
// function for each, which changes the lent lock and gives the small answer. The crate `execute` calls them, and has what
// they ask from the fact that rows have led to the lock.
#![tactic(auto)]

ghost use Rattle.std.specs.Prelude.{◌<◌};
ghost use Rattle.lock.specs.Queue.{without_longest, longest};
ghost use Rattle.lock.specs.Call.{queue_found, write_looked, write_found, write_closed, unlock_got};
ghost use Rattle.lock.specs.declared.Phase.TheVariants.{QueueRead, QueueJoin, WriteLook, WriteEnter, WriteRead};
ghost use Rattle.lock.specs.declared.Phase.TheVariants.{WriteClose, WriteJoin, UnlockNext, UnlockOpen, UnlockStore};
ghost use Rattle.lock.specs.declared.Phase.TheVariants.{LastNext, HandWake};
ghost use Rattle.lock.specs.State.{goes, with_queue};
ghost use Rattle.cells.specs.View.{word_of, route, seen, queued_writers, state_of, Shaped, Leaves};
ghost use Rattle.rows.specs.Outcome.{group_of, Wakes, At, Makes};

use cells::{Cell, Lock, Packed, Pc, goes_to, goes_with, is_closed, is_zero, write_word};
use lock::{Entry, Sizes};
use queue::{reader_joins, write_readers, writer_joins};
use rows::{did, failed, group_size, hands_over, longest_taken, shut_word, stores, swapped};

// ---- the queue, for a reader

// The root was found to be v, with the mutex in hand.
fn after_queue_read(l: &mut Lock, t: usize, v: u64)
    requires { (Shaped l.old) × (t < 64) }
    ensures { Leaves l.new (goes (state_of l.old) t (queue_found (route l.old t) (word_of v))) }
{
    if is_closed(v) {
        goes_to(l, t, Pc::QUEUE_JOIN)
    } else {
        goes_to(l, t, Pc::QUEUE_BACK)
    }
}

pub fn queue_read(z: Sizes, l: &mut Lock, t: usize) -> Entry
    requires { At l.old t }
    ensures { Makes z t (QueueRead (route l.old t)) l.old l.new result }
{
    let v = l[Cell::ROOT];
    after_queue_read(l, t, v);
    did(Entry::READ, Entry::ROOT)
}

pub fn queue_join(z: Sizes, l: &mut Lock, t: usize) -> Entry
    requires { At l.old t }
    ensures { Makes z t QueueJoin l.old l.new result }
{
    reader_joins(l, t);
    goes_to(l, t, Pc::SLEEP);
    did(Entry::QUEUED, Entry::MUTEX)
}

// ---- write-lock

// The root was found to be v.
fn after_write_look(l: &mut Lock, t: usize, v: u64)
    requires { (Shaped l.old) × (t < 64) }
    ensures { Leaves l.new (goes (state_of l.old) t (write_looked (word_of v))) }
{
    if v == Packed::OPEN {
        goes_to(l, t, Pc::WRITE_ENTER)
    } else {
        goes_to(l, t, Pc::WRITE_TAKE)
    }
}

pub fn write_look(z: Sizes, l: &mut Lock, t: usize) -> Entry
    requires { At l.old t }
    ensures { Makes z t WriteLook l.old l.new result }
{
    let v = l[Cell::ROOT];
    after_write_look(l, t, v);
    did(Entry::READ, Entry::ROOT)
}

pub fn write_enter(z: Sizes, l: &mut Lock, t: usize) -> Entry
    requires { At l.old t }
    ensures { Makes z t WriteEnter l.old l.new result }
{
    let v = l[Cell::ROOT];
    if v == Packed::OPEN {
        goes_to(l, t, Pc::WRITING);
        swapped(l, Cell::ROOT, Packed::CLOSED)
    } else {
        after_write_look(l, t, v);
        failed(l, t, Cell::ROOT)
    }
}

// The root was found to be v, with the mutex in hand.
fn after_write_read(l: &mut Lock, t: usize, v: u64)
    requires { (Shaped l.old) × (t < 64) }
    ensures { Leaves l.new (goes (state_of l.old) t (write_found (word_of v))) }
{
    if is_closed(v) {
        goes_to(l, t, Pc::WRITE_JOIN)
    } else {
        goes_with(l, t, Pc::WRITE_CLOSE, v)
    }
}

pub fn write_read(z: Sizes, l: &mut Lock, t: usize) -> Entry
    requires { At l.old t }
    ensures { Makes z t WriteRead l.old l.new result }
{
    let v = l[Cell::ROOT];
    after_write_read(l, t, v);
    did(Entry::READ, Entry::ROOT)
}

// The root was closed with the count of v.
fn after_close(l: &mut Lock, t: usize, v: u64)
    requires { (Shaped l.old) × (t < 64) }
    ensures { Leaves l.new (goes (state_of l.old) t (write_closed (word_of v))) }
{
    if is_zero(v) {
        goes_to(l, t, Pc::WRITE_HOLD)
    } else {
        goes_to(l, t, Pc::WRITE_JOIN)
    }
}

pub fn write_close(z: Sizes, l: &mut Lock, t: usize) -> Entry
    requires { At l.old t }
    ensures { Makes z t (WriteClose (word_of (seen l.old t))) l.old l.new result }
{
    let v = l[Cell::ROOT];
    let old = l[Cell::SEEN + t];
    if v == old {
        after_close(l, t, old);
        swapped(l, Cell::ROOT, shut_word(v))
    } else {
        after_write_read(l, t, v);
        failed(l, t, Cell::ROOT)
    }
}

pub fn write_join(z: Sizes, l: &mut Lock, t: usize) -> Entry
    requires { (At l.old t) × (queued_writers l.old < 64) }
    ensures { Makes z t WriteJoin l.old l.new result }
{
    writer_joins(l, t);
    goes_to(l, t, Pc::SLEEP);
    did(Entry::QUEUED, Entry::MUTEX)
}

// ---- hand-over

// The writer who has waited longest leaves the queue in the hand of thread t; where no writer waits, thread t is to open
// the root.
fn takes_longest(l: &mut Lock, t: usize)
    requires { (Shaped l.old) × (t < 64) }
    ensures { Leaves l.new (goes (with_queue (state_of l.old) (without_longest
        (state_of l.old).queue)) t (unlock_got (longest (state_of l.old).queue.writers))) }
{
    if l[Cell::WRITERS] == 0 {
        goes_to(l, t, Pc::UNLOCK_OPEN)
    } else {
        let w = longest_taken(l);
        goes_with(l, t, Pc::FREE_WRITER, w)
    }
}

pub fn wakes(z: Sizes, l: &mut Lock, t: usize, pc: u64) -> Entry
    requires { (At l.old t) × (Wakes pc) }
    ensures { Makes z t (HandWake (group_of pc (seen l.old t))) l.old l.new result }
{
    let members = l[Cell::SEEN + t];
    hands_over(l, t, members, pc);
    did(Entry::WOKEN, Entry::MUTEX)
}

// ---- unlock by a writer

pub fn unlock_next(z: Sizes, l: &mut Lock, t: usize) -> Entry
    requires { At l.old t }
    ensures { Makes z t UnlockNext l.old l.new result }
{
    let b = l[Cell::READERS];
    if b != 0 {
        write_readers(l, 0);
        goes_with(l, t, Pc::UNLOCK_STORE, b);
    } else {
        takes_longest(l, t);
    }
    did(Entry::QUEUED, Entry::MUTEX)
}

pub fn unlock_open(z: Sizes, l: &mut Lock, t: usize) -> Entry
    requires { At l.old t }
    ensures { Makes z t UnlockOpen l.old l.new result }
{
    goes_to(l, t, Pc::UNLOCK_END);
    write_word(l, Cell::ROOT, Packed::OPEN);
    did(Entry::STORED, Entry::ROOT)
}

pub fn unlock_store(z: Sizes, l: &mut Lock, t: usize) -> Entry
    requires { At l.old t }
    ensures { Makes z t (UnlockStore (seen l.old t)) l.old l.new result }
{
    let n = group_size(l[Cell::SEEN + t]);
    stores(z, l, t, Pc::FREE_READERS, n)
}

// ---- unlock by the last reader

pub fn last_next(z: Sizes, l: &mut Lock, t: usize) -> Entry
    requires { At l.old t }
    ensures { Makes z t LastNext l.old l.new result }
{
    takes_longest(l, t);
    did(Entry::QUEUED, Entry::MUTEX)
}
