// The orders of one lock by their number: what each but 0 does there (crate `step`), and refusals 5 and 6. The match on the
// order byte that serves both locks is in the crate `turn`; `begin` has the orders that begin a call, for the second of
// them.
#![tactic(auto)]

ghost use Rattle.std.specs.Prelude.{◌≡◌, ◌≢◌, ◌<◌};
ghost use Rattle.lock.specs.Refusal.{answer_number};
ghost use Rattle.lock.specs.Run.{row_refusal};
ghost use Rattle.lock.specs.Call.{decode};
ghost use Rattle.cells.specs.View.{Shaped};
ghost use Rattle.step.specs.Reached.{Obeys, Later};

use cells::Lock;
use lock::{Entry, Refusal, Sizes};
use step::{book, downgrade, read_lock, unlock, upgrade, write_lock};

// Orders 3, 4 and 96 + e, which are of document 02; any other that comes here is none of the above. They are not in the
// match on the orders of document 01: of more than three in a row the compiler makes a table, and each row would jump
// by this table and by that of the rows (docs/DECISIONS.md, 124).
pub fn later_order(z: Sizes, l: &mut Lock, t: usize, order: u8) -> Result<Entry, Refusal>
    requires { (Shaped l.old) × (t < 64) × (Later order) }
    ensures { Obeys z t (decode z order) l.old l.new result }
{
    match order {
        3 => upgrade(z, l, t),
        4 => downgrade(z, l, t),
        96..=127 if ((order - 96) as usize) < z.items => book(z, l, t, (order - 96) as usize),
        _ => Err(Refusal::NoSuchOrder),
    }
}

// Refusals 5 and 6 of a row that is to begin a call, order 0 counted in. Nothing is done.
pub fn check_row(z: Sizes, t: usize, order: u8) -> Result<(), Refusal>
    ensures { answer_number result ≡ row_refusal z (record { thread = t; order = order }) }
{
    if z.threads <= t {
        return Err(Refusal::NoSuchThread);
    }
    match order {
        1..=4 => Ok(()),
        64..=95 if ((order - 64) as usize) < z.nodes => Ok(()),
        96..=127 if ((order - 96) as usize) < z.items => Ok(()),
        _ => Err(Refusal::NoSuchOrder),
    }
}

// A call that thread t begins, or a booking; any other order is refused with 6, order 0 being none of these.
pub fn begin(z: Sizes, l: &mut Lock, t: usize, order: u8) -> Result<Entry, Refusal>
    requires { (Shaped l.old) × (t < 64) × (order ≢ 0) }
    ensures { Obeys z t (decode z order) l.old l.new result }
{
    match order {
        1 => write_lock(z, l, t),
        2 => unlock(z, l, t),
        64..=95 => {
            let n = (order - 64) as usize;
            if z.nodes <= n {
                return Err(Refusal::NoSuchOrder);
            }
            read_lock(z, l, t, n as u64)
        },
        _ => later_order(z, l, t, order),
    }
}
