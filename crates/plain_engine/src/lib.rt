// The plain engine in place: each row is a whole call (crate `plain_calls`), by its order; a run of calls; and the file.
#![tactic(auto)]

ghost use Rattle.std.proofs.Math.Option.{some};
ghost use Rattle.lock.specs.Call.{write_lock, unlock, read_lock};
ghost use Rattle.lock.specs.Refusal.{answer_number};
ghost use Rattle.plain_engine.specs.Runner.{Runnable, Runs, PlainBenches};
ghost use Rattle.plain_engine.specs.Calls.{Reached, Ready, Obeys, Calls};

use cells::{Cell, Lock, Pc};
use file::{check_file, rows_of, sizes_of};
use lock::{Ran, Refusal, Sizes};
use plain_calls::{read_locks, reader_leaves, write_locks, writer_leaves};
use step::fresh;

// ---- orders

fn write_lock(z: Sizes, l: &mut Lock, t: usize) -> Result<(), Refusal>
    requires { Ready z l.old t }
    ensures { Obeys t (some write_lock) l.old l.new (answer_number result) }
{
    if l[Cell::PC + t] == Pc::IDLE {
        write_locks(l, t);
        return Ok(());
    }
    Err(Refusal::Unsuitable)
}

fn unlock(z: Sizes, l: &mut Lock, t: usize) -> Result<(), Refusal>
    requires { Ready z l.old t }
    ensures { Obeys t (some unlock) l.old l.new (answer_number result) }
{
    match l[Cell::PC + t] {
        Pc::WRITING => writer_leaves(l, t),
        Pc::READING => reader_leaves(l, t),
        _ => return Err(Refusal::Unsuitable),
    }
    Ok(())
}

fn read_lock(z: Sizes, l: &mut Lock, t: usize, n: u64) -> Result<(), Refusal>
    requires { Ready z l.old t }
    ensures { Obeys t (some (read_lock n)) l.old l.new (answer_number result) }
{
    if l[Cell::PC + t] == Pc::IDLE {
        read_locks(l, t);
        return Ok(());
    }
    Err(Refusal::Unsuitable)
}

// One row: thread t's call, whole, by its order; where it is refused, the lock stays. It asks that calls have led to the
// lock from the fresh one, which `step::fresh` gives and each call keeps.
pub fn call(z: Sizes, l: &mut Lock, t: usize, order: u8) -> Result<(), Refusal>
    requires { Reached z l.old }
    ensures { Calls z (record { thread = t; order = order }) l.old l.new (answer_number result) }
{
    if z.threads <= t {
        return Err(Refusal::NoSuchThread);
    }
    match order {
        1 => write_lock(z, l, t),
        2 => unlock(z, l, t),
        64..=95 => {
            let n = (order - 64) as usize;
            if z.nodes <= n {
                return Err(Refusal::NoSuchOrder);
            }
            read_lock(z, l, t, n as u64)
        },
        _ => Err(Refusal::NoSuchOrder),
    }
}

// ---- a run

// Runs the calls on the lock, made fresh.
fn run_calls(z: Sizes, threads: &[u8], orders: &[u8], l: &mut Lock) -> Ran
    requires { Runnable z threads.now orders.now }
    ensures { Runs z threads.now orders.now l.new result }
{
    fresh(l);
    for (i, number) in threads.iter().enumerate() {
        if let Err(refusal) = call(z, l, usize::from(*number), orders[i]) {
            return Ran::after(Err(refusal), i, z);
        }
    }
    Ran::after(Ok(()), threads.len(), z)
}

// Runs a file of calls on the caller's lock, which it makes fresh. It asks nothing of the file or the lock; after
// refusals 1 to 3 the lock is as it was.
pub fn run_file(file: &[u8], l: &mut Lock) -> Ran
    ensures { PlainBenches file.now l.old l.new result }
{
    let sizes = sizes_of(file);
    if let Err(refusal) = check_file(file) {
        return Ran::refused(refusal, sizes);
    }
    let orders = 5 + rows_of(file);
    run_calls(sizes, &file[5..orders], &file[orders..], l)
}
