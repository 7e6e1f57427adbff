// Who waits, in place: the stores into the queue's cells of a lock (crate `cells`). Readers are a set, and writers stand
// in a ring of 64 places, the one who has waited longest at the place FIRST. The contracts are as those of `cells`: which
// state of the definitions the array then stands for.
#![tactic(auto)]

ghost use Rattle.std.specs.Prelude.{◌≡◌, ◌≢◌, ◌<◌, ◌≤◌};
ghost use Rattle.lock.specs.State.{with_queue};
ghost use Rattle.lock.specs.Queue.{only, with_readers, join_reader, join_writer, without_longest};
ghost use Rattle.cells.specs.Kept.{ahead};
ghost use Rattle.cells.specs.View.{queued_writers, state_of, Shaped, Leaves};

use cells::{Cell, Lock};

// The set that has thread t alone.
pub fn bit(t: usize) -> u64
    requires { t < 64 }
    ensures { result ≡ only t }
{
    1 << t
}

pub fn write_readers(l: &mut Lock, b: u64)
    requires { Shaped l.old }
    ensures { Leaves l.new
        (with_queue (state_of l.old) (with_readers b (state_of l.old).queue)) }
{
    l[Cell::READERS] = b;
}

// Thread t joins the group of readers.
pub fn reader_joins(l: &mut Lock, t: usize)
    requires { Shaped l.old × (t < 64) }
    ensures { Leaves l.new
        (with_queue (state_of l.old) (join_reader t (state_of l.old).queue)) }
{
    let b = l[Cell::READERS] | bit(t);
    write_readers(l, b);
}

// The place of the ring that is n places behind place `first`: behind place 63 comes place 0.
fn behind(first: u64, n: u64) -> u64
    requires { (first < 64) × (n ≤ 64) }
    ensures { (result ≡ ahead first n) × (result < 64) }
{
    (first + n) % Cell::PLACES
}

// Thread t waits behind the writers who came before it.
pub fn writer_joins(l: &mut Lock, t: usize)
    requires { Shaped l.old × (t < 64) × (queued_writers l.old < 64) }
    ensures { Leaves l.new
        (with_queue (state_of l.old) (join_writer t (state_of l.old).queue)) }
{
    let first = l[Cell::FIRST];
    let n = l[Cell::WRITERS];
    let at = behind(first, n) as usize;
    l[Cell::RING + at] = t as u64;
    l[Cell::WRITERS] = n + 1;
}

// The writer who has waited longest leaves.
pub fn longest_leaves(l: &mut Lock)
    requires { Shaped l.old × (queued_writers l.old ≢ 0) }
    ensures { Leaves l.new
        (with_queue (state_of l.old) (without_longest (state_of l.old).queue)) }
{
    let first = l[Cell::FIRST];
    let n = l[Cell::WRITERS];
    l[Cell::FIRST] = behind(first, 1);
    l[Cell::WRITERS] = n - 1;
}
