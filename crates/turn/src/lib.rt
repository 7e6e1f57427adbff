// One row of two locks, in place: the one match on the order byte. Orders above 128 leave it for the second lock
// (`second_call`). Whoever runs two locks lends them here, row by row.
#![tactic(auto)]

ghost use Rattle.std.specs.Prelude.{◌≡◌, ◌<◌, true, false, IfOk, IfErr};
ghost use Rattle.lock.specs.Bound.{steps_before};
ghost use Rattle.lock.specs.Refusal.{number_of};
ghost use Rattle.lock.specs.declared.Refusal.TheVariants.{Unsuitable};
ghost use Rattle.cells.specs.View.{state_of};
ghost use Rattle.step.specs.Reached.{Later};
ghost use Rattle.pair.specs.Pair.{busy, lowered};
ghost use Rattle.turn.specs.Turn.{refused_new, Begins, Place, Turned};

use cells::{Cell, Lock, Pc, fresh};
use execute::go_on;
use lock::{Entry, Refusal, Sizes};
use orders::{begin, check_row, later_order};
use step::{read_lock, unlock, write_lock};

// The two locks: behind a reference wherever they go, and one of them lent at a time.
pub type Locks = [[u64; 512]; 2];

// Two fresh locks.
pub fn fresh_locks() -> Locks
    ensures { Begins result }
{
    let l = fresh();
    [l; 2]
}

// Is thread t in a call of the lock, or asleep there?
fn is_busy(l: &Lock, t: usize) -> bool
    requires { t < 64 }
    ensures { result ≡ busy (state_of l.now) t }
{
    Pc::LOOK <= l[Cell::PC + t]
}

// Refused with 7 where it is: it is in one call at a time.
fn check_free(l: &Lock, t: usize) -> Result<(), Refusal>
    requires { t < 64 }
    ensures free { IfOk result (λ _. busy (state_of l.now) t ≡ false) }
    ensures barred { IfErr result (λ refusal. (refusal ≡ Unsuitable) × (busy (state_of l.now) t ≡ true)) }
{
    if is_busy(l, t) {
        Err(Refusal::Unsuitable)
    } else {
        Ok(())
    }
}

// The order that the row's lock gets: without the 128 of the second lock's orders. 128 itself is none of any lock's,
// nor is a booking with 128 added.
fn own_order(order: u8) -> u8
    ensures { result ≡ lowered order }
{
    match order {
        129..=223 => order - 128,
        _ => order,
    }
}

// The refusal of a new call that the other lock bars: 7, after 5 and 6.
fn barred(z: Sizes, t: usize, order: u8) -> Refusal
    ensures { number_of result ≡ refused_new z (record { thread = t; order = order }) }
{
    match check_row(z, t, order) {
        Ok(()) => Refusal::Unsuitable,
        Err(refusal) => refusal,
    }
}

// Order 0: thread t goes on with the call under way. The first lock is tried, and then the second: a lock in whose call
// the thread is not refuses, and stays as it is. So the rows of the first lock need no test, and there is one call of
// `go_on`, which the compiler puts into the loop over rows (docs/DECISIONS.md, 83). Its entry is read in place, as
// `execute` copies it, byte by byte.
#[inline(always)]
fn goes_on(z: Sizes, locks: &mut Locks, t: usize) -> Result<Entry, Refusal>
    requires { (Place z locks.old steps_before) × (t < z.threads) }
    ensures { Turned z (record { thread = t; order = 0 }) locks.old locks.new result }
{
    let mut add: u8 = 0;
    for side in 0..2 {
        if let Ok(entry) = &go_on(z, &mut locks[side], t) {
            return Ok(Entry {
                kind: entry.kind,
                word: entry.word + add,
            });
        }
        add = Entry::SECOND;
    }
    Err(Refusal::Unsuitable)
}

// Orders above 128: a call of the second lock.
fn second_call(z: Sizes, locks: &mut Locks, t: usize, order: u8) -> Result<Entry, Refusal>
    requires { (Place z locks.old steps_before) × (t < z.threads) × (128 < order) }
    ensures { Turned z (record { thread = t; order = order }) locks.old locks.new result }
{
    let own = own_order(order);
    if is_busy(&locks[0], t) {
        return Err(barred(z, t, own));
    }
    let entry = begin(z, &mut locks[1], t, own)?;
    Ok(Entry {
        word: entry.word + Entry::SECOND,
        ..entry
    })
}

// The rarer orders: calls of the second lock, conversions and bookings; any other is refused. They are apart so that
// the match above has few arms (docs/DECISIONS.md, 124).
fn rarer_order(z: Sizes, locks: &mut Locks, t: usize, order: u8) -> Result<Entry, Refusal>
    requires { (Place z locks.old steps_before) × (t < z.threads) × (Later order) }
    ensures { Turned z (record { thread = t; order = order }) locks.old locks.new result }
{
    if 128 < order {
        return second_call(z, locks, t, order);
    }
    if is_busy(&locks[1], t) {
        return Err(barred(z, t, order));
    }
    later_order(z, &mut locks[0], t, order)
}

// One row of thread t, at the lock that it is for. With `goes_on` it is put into the loops over rows, as `go_on` is.
#[inline(always)]
pub fn row(z: Sizes, locks: &mut Locks, t: usize, order: u8) -> Result<Entry, Refusal>
    requires { Place z locks.old steps_before }
    ensures { Turned z (record { thread = t; order = order }) locks.old locks.new result }
{
    if z.threads <= t {
        return Err(Refusal::NoSuchThread);
    }
    match order {
        0 => goes_on(z, locks, t),
        1 => {
            check_free(&locks[1], t)?;
            write_lock(z, &mut locks[0], t)
        },
        2 => {
            check_free(&locks[1], t)?;
            unlock(z, &mut locks[0], t)
        },
        64..=95 => {
            let n = (order - 64) as usize;
            if z.nodes <= n {
                return Err(Refusal::NoSuchOrder);
            }
            check_free(&locks[1], t)?;
            read_lock(z, &mut locks[0], t, n as u64)
        },
        _ => rarer_order(z, locks, t, order),
    }
}
