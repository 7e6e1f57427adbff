// The calls of one lock that a thread begins, a booking, and the fresh lock. Which order is for which of them is in the
// crate `orders`, order 0 in the crate `execute`.
#![tactic(auto)]

ghost use Rattle.std.proofs.Math.Option.{some};
ghost use Rattle.std.specs.Prelude.{◌≡◌, ◌≢◌, ◌<◌, IfOk, IfErr};
ghost use Rattle.lock.specs.declared.Refusal.TheVariants.{Unsuitable};
ghost use Rattle.lock.specs.Call.{write_lock, unlock, upgrade, downgrade, read_lock, book};
ghost use Rattle.cells.specs.View.{pc, Shaped};
ghost use Rattle.step.specs.Reached.{Obeys, Begun};

use cells::{Cell, Lock, Pc, goes_at, goes_by, goes_to};
use lock::{Entry, Refusal, Sizes};
use rows::did;

// ---- calls, by the order that begins them

// An order suits thread t at one program counter alone: elsewhere it is refused.
fn suits(l: &Lock, t: usize, at: u64) -> Result<(), Refusal>
    requires { t < 64 }
    ensures there { IfOk result (λ _. pc l.now t ≡ at) }
    ensures elsewhere { IfErr result (λ refusal. (refusal ≡ Unsuitable) × (pc l.now t ≢ at)) }
{
    if l[Cell::PC + t] == at {
        Ok(())
    } else {
        Err(Refusal::Unsuitable)
    }
}

pub fn write_lock(z: Sizes, l: &mut Lock, t: usize) -> Result<Entry, Refusal>
    requires { (Shaped l.old) × (t < 64) }
    ensures { Obeys z t (some write_lock) l.old l.new result }
{
    suits(l, t, Pc::IDLE)?;
    goes_to(l, t, Pc::WRITE_LOOK);
    Ok(did(Entry::BEGUN, Entry::NONE))
}

pub fn unlock(z: Sizes, l: &mut Lock, t: usize) -> Result<Entry, Refusal>
    requires { (Shaped l.old) × (t < 64) }
    ensures { Obeys z t (some unlock) l.old l.new result }
{
    match l[Cell::PC + t] {
        Pc::WRITING => goes_to(l, t, Pc::UNLOCK_TAKE),
        Pc::READING => {
            let n = l[Cell::ROUTE + t];
            if n == 0 {
                goes_to(l, t, Pc::LEAVE)
            } else {
                goes_at(l, t, Pc::DEPART, n)
            }
        },
        _ => return Err(Refusal::Unsuitable),
    }
    Ok(did(Entry::BEGUN, Entry::NONE))
}

pub fn upgrade(z: Sizes, l: &mut Lock, t: usize) -> Result<Entry, Refusal>
    requires { (Shaped l.old) × (t < 64) }
    ensures { Obeys z t (some upgrade) l.old l.new result }
{
    suits(l, t, Pc::READING)?;
    if l[Cell::ROUTE + t] == 0 {
        goes_to(l, t, Pc::UPGRADE_LOOK);
    } else {
        goes_to(l, t, Pc::TRADE);
    }
    Ok(did(Entry::BEGUN, Entry::NONE))
}

pub fn downgrade(z: Sizes, l: &mut Lock, t: usize) -> Result<Entry, Refusal>
    requires { (Shaped l.old) × (t < 64) }
    ensures { Obeys z t (some downgrade) l.old l.new result }
{
    suits(l, t, Pc::WRITING)?;
    goes_to(l, t, Pc::DOWNGRADE_TAKE);
    Ok(did(Entry::BEGUN, Entry::NONE))
}

pub fn read_lock(z: Sizes, l: &mut Lock, t: usize, n: u64) -> Result<Entry, Refusal>
    requires { (Shaped l.old) × (t < 64) }
    ensures { Obeys z t (some (read_lock n)) l.old l.new result }
{
    suits(l, t, Pc::IDLE)?;
    goes_by(l, t, Pc::LOOK, n);
    Ok(did(Entry::BEGUN, Entry::NONE))
}

// Order 96 + e: a booking moves nothing.
pub fn book(z: Sizes, l: &mut Lock, t: usize, e: usize) -> Result<Entry, Refusal>
    requires { (Shaped l.old) × (t < 64) }
    ensures { Obeys z t (some (book e)) l.old l.new result }
{
    suits(l, t, Pc::WRITING)?;
    Ok(did(Entry::BOOKED, Entry::NONE))
}

// ---- the fresh lock

// The caller's lock is made fresh: no row has led to it.
pub fn fresh(l: &mut Lock)
    ensures { Begun l.new }
{
    *l = cells::fresh();
}
