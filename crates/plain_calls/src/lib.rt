// The four calls of the plain engine, in place: each is whole, made in a few stores on a lent lock. The array is the
// bench's own, of which it uses word 0, the queue and the threads' program counters; so queue, waking and stores are
// those of the tree.
#![tactic(auto)]

ghost use Rattle.std.specs.Prelude.{◌≡◌, ◌<◌, get_or};
ghost use Rattle.lock.specs.Queue.{writer_queued};
ghost use Rattle.lock.specs.Call.{stored};
ghost use Rattle.cells.specs.Layout.{WRITERS, PLACES};
ghost use Rattle.cells.specs.View.{word_of, state_of, Shaped, Leaves};
ghost use Rattle.plain_model.specs.Plain.{read_locks, write_locks, writer_leaves, reader_leaves};
ghost use Rattle.plain_calls.specs.View.{plain_of, Stands, passed_to_writer, passed_to_readers, At};

use cells::{Cell, Lock, Packed, Pc, goes_by, goes_to, is_closed, write_word};
use queue::{reader_joins, write_readers, writer_joins};
use rows::{group_size, hands_over, longest_taken, lowered_direct, shut_word};

// Closed leads to the queue; open, one more reader is counted.
pub fn read_locks(l: &mut Lock, t: usize)
    requires { At l.old t }
    ensures { Stands l.new (read_locks (plain_of (state_of l.old)) t) }
{
    let v = l[Cell::ROOT];
    if is_closed(v) {
        reader_joins(l, t);
        goes_to(l, t, Pc::ASLEEP);
        return;
    }
    write_word(l, Cell::ROOT, v + Packed::DIRECT);
    goes_by(l, t, Pc::READING, 0);
}

// At (0, open) it is closed, and held; else it is closed with the count kept, and the writer waits.
pub fn write_locks(l: &mut Lock, t: usize)
    requires { (At l.old t) × (get_or l.old WRITERS 0 < PLACES) }
    ensures { Stands l.new (write_locks (plain_of (state_of l.old)) t) }
{
    let v = l[Cell::ROOT];
    if v == Packed::OPEN {
        write_word(l, Cell::ROOT, Packed::CLOSED);
        goes_to(l, t, Pc::WRITING);
        return;
    }
    write_word(l, Cell::ROOT, shut_word(v));
    writer_joins(l, t);
    goes_to(l, t, Pc::ASLEEP);
}

// The writer who has waited longest holds, if one waits, and thread t is idle.
fn passes_to_writer(l: &mut Lock, t: usize)
    requires { (Shaped l.old) × (t < 64) }
    ensures { Leaves l.new (passed_to_writer (state_of l.old) t) }
{
    if l[Cell::WRITERS] == 0 {
        goes_to(l, t, Pc::IDLE);
        return;
    }
    let w = longest_taken(l);
    hands_over(l, t, w, Pc::WRITING);
}

// The root's word where n readers hold: closed if a writer waits.
fn held_word(l: &Lock, n: u64) -> u64
    requires { n < 65536 }
    ensures { word_of result ≡ stored n (writer_queued (state_of l.now).queue) }
{
    if l[Cell::WRITERS] == 0 {
        return n * Packed::DIRECT;
    }
    n * Packed::DIRECT + Packed::CLOSED
}

// The waiting readers, the set b, hold; the root has their number, closed if a writer waits; and thread t is idle.
fn passes_to_readers(l: &mut Lock, t: usize, b: u64)
    requires { (Shaped l.old) × (t < 64) }
    ensures { Leaves l.new (passed_to_readers (state_of l.old) t b) }
{
    let v = held_word(l, group_size(b));
    write_word(l, Cell::ROOT, v);
    write_readers(l, 0);
    hands_over(l, t, b, Pc::READING);
}

// To the waiting readers if there are any, else to that writer; with nobody waiting the root is open.
pub fn writer_leaves(l: &mut Lock, t: usize)
    requires { At l.old t }
    ensures { Stands l.new (writer_leaves (plain_of (state_of l.old)) t) }
{
    let b = l[Cell::READERS];
    if b != 0 {
        passes_to_readers(l, t, b);
        return;
    }
    if l[Cell::WRITERS] == 0 {
        write_word(l, Cell::ROOT, Packed::OPEN);
        goes_to(l, t, Pc::IDLE);
        return;
    }
    passes_to_writer(l, t);
}

// One reader less is counted; the last one to leave a closed root hands over.
pub fn reader_leaves(l: &mut Lock, t: usize)
    requires { At l.old t }
    ensures { Stands l.new (reader_leaves (plain_of (state_of l.old)) t) }
{
    let v = lowered_direct(l[Cell::ROOT]);
    write_word(l, Cell::ROOT, v);
    if v == Packed::CLOSED {
        passes_to_writer(l, t);
        return;
    }
    goes_to(l, t, Pc::IDLE);
}
