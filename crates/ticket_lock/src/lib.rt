// The ticket lock: a row, the ticket file, and the run of one.
#![tactic(auto)]

ghost use Rattle.std.specs.Prelude.{◌≡◌, ◌<◌, ◌&&◌, nat_le, replicate};
ghost use Rattle.lock.specs.File.{within};
ghost use Rattle.lock.specs.Refusal.{answer_number};
ghost use Rattle.ticket_model.specs.Machine.{idle, obey};
ghost use Rattle.ticket_model.specs.File.{thread_count, row_count, start_of, refusal};
ghost use Rattle.ticket_lock.specs.Rows.{made_by, lock_of, ran_to, ran_on};
ghost use Rattle.ticket_lock.specs.Runner.{Runnable, Runs, Tickets};

use file::{byte_at, check_shape, is_within, two_bytes};
use lock::Refusal;
use ticket_model::{Lock, Standing, Thread};

// What a run came to: its answer, the rows taken, T, and the lock, which after refusals 1 to 3 is as it is made.
#[derive(Clone, Copy)]
pub struct Ran {
    pub answer: Result<(), Refusal>,
    pub taken: usize,
    pub threads: usize,
    pub lock: Lock,
}

// What a run on a lent lock came to: the same without the lock, which its owner has.
#[derive(Clone, Copy)]
pub struct Answered {
    pub answer: Result<(), Refusal>,
    pub taken: usize,
    pub threads: usize,
}

// ---- one row

// A row of a thread that there is, which sees the ticket, the grant and its own thread; where it is refused these stay.
#[tactic(auto, using(crate::proofs::Orders::comes_to_hold, crate::proofs::Orders::waits_on, crate::proofs::Orders::takes_one, crate::proofs::Orders::leaves_it, crate::proofs::Orders::none_waits, crate::proofs::Orders::none_idle, crate::proofs::Orders::none_holds, crate::proofs::Orders::no_order))]
fn row(ticket: &mut u16, grant: &mut u16, me: &mut Thread, order: u8) -> Result<(), Refusal>
    ensures { made_by result ticket.new grant.new me.new ≡ obey order ticket.old grant.old me.old }
{
    match (order, me.standing) {
        (0, Standing::Waiting) => {
            if me.own == *grant {
                me.standing = Standing::Holding;
            }
        }
        (1, Standing::Idle) => {
            *me = Thread {
                standing: Standing::Waiting,
                own: *ticket,
            };
            *ticket = ticket.wrapping_add(1);
        }
        (2, Standing::Holding) => {
            *me = Thread::fresh();
            *grant = grant.wrapping_add(1);
        }
        (0..=2, _) => return Err(Refusal::Unsuitable),
        _ => return Err(Refusal::NoSuchOrder),
    }
    Ok(())
}

// ---- a run

// What a run of `count` threads came to. Its ticket and grant go into the lock, whose threads it has in place.
fn handed(
    answer: Result<(), Refusal>,
    taken: usize,
    count: usize,
    ticket: u16,
    grant: u16,
    lock: &mut Lock,
) -> Answered
    ensures { ran_on result lock.new ≡ ran_to answer taken count (lock_of ticket grant lock.old.threads) }
{
    lock.ticket = ticket;
    lock.grant = grant;
    Answered {
        answer,
        taken,
        threads: count,
    }
}

// Runs the rows on a lock whose threads are fresh. The ticket and the grant stay in the locals of this loop
// (docs/DECISIONS.md, 101).
fn run_rows(count: usize, start: u16, threads: &[u8], orders: &[u8], lock: &mut Lock) -> Answered
    requires sizes { Runnable count threads.now orders.now }
    requires unused { lock.old.threads ≡ replicate 64 idle }
    ensures { Runs count start threads.now orders.now (ran_on result lock.new) }
{
    let mut ticket = start;
    let mut grant = start;
    for (i, number) in threads.iter().enumerate() {
        let t = usize::from(*number);
        if count <= t {
            return handed(Err(Refusal::NoSuchThread), i, count, ticket, grant, lock);
        }
        if let Err(refusal) = row(&mut ticket, &mut grant, &mut lock.threads[t], orders[i]) {
            return handed(Err(refusal), i, count, ticket, grant, lock);
        }
    }
    handed(Ok(()), threads.len(), count, ticket, grant, lock)
}

// ---- the file: T, S in two bytes, the start number in two bytes, S thread numbers, S orders

pub fn threads_of(file: &[u8]) -> usize
    ensures { result ≡ thread_count file.now }
{
    byte_at(file, 0)
}

pub fn rows_of(file: &[u8]) -> usize
    ensures { (result ≡ row_count file.now) × (result < 65536) }
{
    two_bytes(file, 1, 2)
}

pub fn start_of(file: &[u8]) -> u16
    ensures { result ≡ start_of file.now }
{
    two_bytes(file, 3, 4) as u16
}

fn sizes_fit(threads: usize, rows: usize) -> bool
    ensures { result ≡ (within 1 64 threads && nat_le rows 4096) }
{
    is_within(1, 64, threads) && rows <= 4096
}

// Refusals 1 to 3, of a ticket file: the first that applies.
pub fn check_file(file: &[u8]) -> Result<(), Refusal>
    ensures { answer_number result ≡ refusal file.now }
{
    let rows = rows_of(file);
    let fits = sizes_fit(threads_of(file), rows);
    check_shape(file.len(), fits, rows)
}

// Runs a ticket file on the lent lock, whatever that was. It asks nothing of the file or the lock.
pub fn run_on(file: &[u8], lock: &mut Lock) -> Answered
    ensures { Tickets file.now (ran_on result lock.new) }
{
    let count = threads_of(file);
    let start = start_of(file);
    lock.threads = [Thread::fresh(); 64];
    if let Err(refusal) = check_file(file) {
        return handed(Err(refusal), 0, count, start, start, lock);
    }
    let orders = 5 + rows_of(file);
    run_rows(count, start, &file[5..orders], &file[orders..], lock)
}

// Runs a ticket file. It asks nothing of the file.
pub fn run_file(file: &[u8]) -> Ran
    ensures { Tickets file.now result }
{
    let mut lock = Lock {
        ticket: 0,
        grant: 0,
        threads: [Thread::fresh(); 64],
    };
    let answered = run_on(file, &mut lock);
    Ran {
        answer: answered.answer,
        taken: answered.taken,
        threads: answered.threads,
        lock,
    }
}
