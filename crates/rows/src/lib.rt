// What the rows of the pseudocode share, in place: what a row gives, which is its entry, the two ends of a swap, a word with one arrival
// less, the mutex taken and released, the parts of a hand-over. The rows themselves, a function for each, are in the
// crates `writers`, `tree` and `convert`. Their text is that of document 01; the definitions have the same rows (`lock`
// specs/Call `op`), and each contract says that the row of its phase was made (specs/Outcome `Makes`).
//
// What rows ask (`At`, `AtNode`: the array is well formed, the thread's number, its node and its counts are in range)
// the crate `execute`, which calls them, has from the fact that rows have led to the lock from the fresh one; what the
// plain engine uses too asks less.
#![tactic(auto)]

ghost use Rattle.std.specs.Prelude.{◌≡◌, ◌≢◌, ◌<◌, ◌≤◌};
ghost use Rattle.lock.specs.Word.{down, down_direct, shut};
ghost use Rattle.lock.specs.Queue.{without_longest, only, size, writer_queued};
ghost use Rattle.lock.specs.Call.{stored, lock, release, store};
ghost use Rattle.lock.specs.declared.Phase.TheVariants.{Idle};
ghost use Rattle.lock.specs.State.{goes, with_queue, with_threads, woken, holding, perform};
ghost use Rattle.cells.specs.View.{word_of, phase_of, node, route, below, seen, queued_writers, front, state_of, Shaped};
ghost use Rattle.cells.specs.View.{Leaves};
ghost use Rattle.rows.specs.Outcome.{Roomy, group_of, Wakes, Comes, Countable, Swapped, Failed, MaySwap, ReadBy, Missed};

use cells::{
    Cell, Lock, Packed, Pc, direct_of, fails, goes_to, goes_with, write_mutex, write_word,
};
use lock::{Entry, Sizes};
use queue::{bit, longest_leaves};
use waking::wake_all;

// ---- what a row gives

// The entry of a row that did this, on this word.
pub fn did(kind: u8, word: u8) -> Entry
    ensures { result ≡ record { kind = kind; word = word } }
{
    Entry { kind, word }
}

// The swap of word w was done: it has v now.
pub fn swapped(l: &mut Lock, w: usize, v: u64) -> Entry
    requires { (Shaped l.old) × (w < 32) }
    ensures { Swapped w v l.old l.new result }
{
    write_word(l, w, v);
    did(Entry::SWAPPED, w as u8)
}

// The swap of word w failed. Thread t has gone on with the word found, and counts the failure.
pub fn failed(l: &mut Lock, t: usize, w: usize) -> Entry
    requires { (Countable t l.old) × (w < 32) }
    ensures { Failed w t l.old l.new result }
{
    fails(l, t);
    did(Entry::FAILED, w as u8)
}

// ---- a word found

// Thread t reads word w, and goes on to a program counter with what it finds.
pub fn reads(l: &mut Lock, t: usize, w: usize, pc: u64) -> Entry
    requires { (Shaped l.old) × (t < 64) × (w < 32) }
    ensures { ReadBy w t pc l.old l.new result }
{
    let v = l[w];
    goes_with(l, t, pc, v);
    did(Entry::READ, w as u8)
}

// The swap of word w fails: thread t goes on to a program counter with what it finds, and counts the failure.
pub fn tries_again(l: &mut Lock, t: usize, w: usize, pc: u64) -> Entry
    requires { (Shaped l.old) × (MaySwap l.old t w) }
    ensures { Missed w t pc l.old l.new result }
{
    let v = l[w];
    goes_with(l, t, pc, v);
    failed(l, t, w)
}

// ---- words

// One arrival less, by the tree and directly. Where the count is 0 the word stays: a departure finds none (`laws`
// specs/Departing).
pub fn lowered(v: u64) -> u64
    ensures { word_of result ≡ down (word_of v) }
{
    if v < Packed::TREE {
        v
    } else {
        v - Packed::TREE
    }
}

pub fn lowered_direct(v: u64) -> u64
    ensures { word_of result ≡ down_direct (word_of v) }
{
    if direct_of(v) == 0 {
        v
    } else {
        v - Packed::DIRECT
    }
}

pub fn shut_word(v: u64) -> u64
    requires { Roomy v }
    ensures { word_of result ≡ shut (word_of v) }
{
    v / Packed::DIRECT * Packed::DIRECT + Packed::CLOSED
}

// ---- the mutex

// A thread takes the mutex and goes on to a program counter; where the mutex is taken it is held up.
pub fn takes(z: Sizes, l: &mut Lock, t: usize, pc: u64) -> Entry
    requires { (Shaped l.old) × (t < 64) }
    ensures { Comes l.old l.new (Ok result) (perform z (state_of l.old) t (lock (phase_of pc
        (node l.old t) (route l.old t) (below l.old t) (seen l.old t)))) }
{
    if l[Cell::MUTEX] == Cell::FREE {
        goes_to(l, t, pc);
        write_mutex(l, t as u64);
        did(Entry::TAKEN, Entry::MUTEX)
    } else {
        did(Entry::HELD_UP, Entry::MUTEX)
    }
}

// It releases the mutex and goes on to a program counter.
pub fn releases(z: Sizes, l: &mut Lock, t: usize, pc: u64) -> Entry
    requires { (Shaped l.old) × (t < 64) }
    ensures { Comes l.old
        l.new (Ok result) (perform z (state_of l.old) t (release (phase_of pc
        (node l.old t) (route l.old t) (below l.old t) (seen l.old t)))) }
{
    goes_to(l, t, pc);
    write_mutex(l, Cell::FREE);
    did(Entry::RELEASED, Entry::MUTEX)
}

// ---- hand-over

pub fn group_size(b: u64) -> u64
    ensures { (result ≡ size b) × (result ≤ 64) }
{
    b.count_ones() as u64
}

// The root with n direct arrivals, closed if a writer is still queued, else open.
pub fn stored_word(l: &Lock, n: u64) -> u64
    requires { n < 65536 }
    ensures { word_of result ≡ stored n (writer_queued (state_of l.now).queue) }
{
    if l[Cell::WRITERS] == 0 {
        n * Packed::DIRECT
    } else {
        n * Packed::DIRECT + Packed::CLOSED
    }
}

// Thread t stores n direct arrivals in the root, closed if a writer is still queued, else open, and goes on to a
// program counter.
pub fn stores(z: Sizes, l: &mut Lock, t: usize, pc: u64, n: u64) -> Entry
    requires { (Shaped l.old) × (t < 64) × (n < 65536) }
    ensures { Comes l.old
        l.new (Ok result) (perform z (state_of l.old) t (store (stored n) (phase_of pc
        (node l.old t) (route l.old t) (below l.old t) (seen l.old t)))) }
{
    let root = stored_word(l, n);
    goes_to(l, t, pc);
    write_word(l, Cell::ROOT, root);
    did(Entry::STORED, Entry::ROOT)
}

// The writer who has waited longest leaves the queue. Gives the set that has it alone.
pub fn longest_taken(l: &mut Lock) -> u64
    requires { (Shaped l.old) × (queued_writers l.old ≢ 0) }
    ensures { (Leaves l.new (with_queue (state_of l.old)
        (without_longest (state_of l.old).queue))) × (result ≡ only (front l.old)) }
{
    let first = l[Cell::FIRST] as usize;
    let w = l[Cell::RING + first] as usize;
    longest_leaves(l);
    bit(w)
}

// A group wakes at the program counter `pc`, READING or WRITING, and thread t, which woke it, is idle. The looks'
// number has no further use.
pub fn hands_over(l: &mut Lock, t: usize, members: u64, pc: u64)
    requires { (Shaped l.old) × (t < 64) × (Wakes pc) }
    ensures { Leaves l.new (goes (with_threads (state_of l.old)
        (woken (holding (group_of pc members)) members (state_of l.old).threads)) t Idle) }
{
    wake_all(l, members, pc);
    goes_to(l, t, Pc::IDLE);
}
