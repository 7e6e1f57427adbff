// The rows that turn one hold into another, in place: a reader who wants to write (document 02, Seven), and the way
// back from writing to reading (Eight). A function for each, as in the crate `rows`, whose contracts these have; the
// crate `execute` calls them.
#![tactic(auto)]

ghost use Rattle.std.specs.Prelude.{◌<◌};
ghost use Rattle.lock.specs.Call.{upgrade_found};
ghost use Rattle.lock.specs.declared.Phase.TheVariants.{Reading, UpgradeTrade, UpgradeEnter, UpgradeLook, UpgradeSwap};
ghost use Rattle.lock.specs.declared.Phase.TheVariants.{DowngradeNext, DowngradeStore, DowngradeRelease};
ghost use Rattle.lock.specs.declared.Phase.TheVariants.{DowngradeWake};
ghost use Rattle.lock.specs.State.{goes, granted};
ghost use Rattle.cells.specs.View.{word_of, route, seen, state_of, Shaped, Leaves};
ghost use Rattle.rows.specs.Outcome.{At, Makes};

use cells::{Cell, Lock, Packed, Pc, goes_at, goes_by, goes_to, goes_with, is_sole, write_mutex};
use lock::{Entry, Sizes};
use queue::write_readers;
use rows::{did, failed, group_size, reads, releases, stores, swapped, tries_again};
use waking::wake_all;

// Thread t reads, with ticket 0.
fn goes_reading(l: &mut Lock, t: usize)
    requires { (Shaped l.old) × (t < 64) }
    ensures { Leaves l.new (goes (state_of l.old) t (Reading 0)) }
{
    goes_by(l, t, Pc::READING, 0);
}

// ---- upgrade with a node's ticket: arrive directly, then depart from the node

pub fn upgrade_trade(z: Sizes, l: &mut Lock, t: usize) -> Entry
    requires { At l.old t }
    ensures { Makes z t (UpgradeTrade (route l.old t)) l.old l.new result }
{
    reads(l, t, Cell::ROOT, Pc::TRADE_SWAP)
}

pub fn upgrade_enter(z: Sizes, l: &mut Lock, t: usize) -> Entry
    requires { At l.old t }
    ensures { Makes z t (UpgradeEnter (route l.old t) (word_of (seen l.old t)))
        l.old l.new result }
{
    let v = l[Cell::ROOT];
    let old = l[Cell::SEEN + t];
    if v == old {
        let n = l[Cell::ROUTE + t];
        goes_at(l, t, Pc::TRADED, n);
        swapped(l, Cell::ROOT, v + Packed::DIRECT)
    } else {
        tries_again(l, t, Cell::ROOT, Pc::TRADE_SWAP)
    }
}

// ---- upgrade with ticket 0

// The root was found to be v: whoever is alone there goes on to the swap, and any other is denied and goes on reading.
fn after_upgrade_look(l: &mut Lock, t: usize, v: u64)
    requires { (Shaped l.old) × (t < 64) }
    ensures { Leaves l.new
        (goes (state_of l.old) t (granted (Reading 0) (upgrade_found (word_of v)))) }
{
    if is_sole(v) {
        goes_with(l, t, Pc::UPGRADE_SWAP, v)
    } else {
        goes_reading(l, t)
    }
}

pub fn upgrade_look(z: Sizes, l: &mut Lock, t: usize) -> Entry
    requires { At l.old t }
    ensures { Makes z t UpgradeLook l.old l.new result }
{
    let v = l[Cell::ROOT];
    after_upgrade_look(l, t, v);
    if is_sole(v) {
        did(Entry::READ, Entry::ROOT)
    } else {
        did(Entry::UPGRADE_DENIED, Entry::ROOT)
    }
}

pub fn upgrade_swap(z: Sizes, l: &mut Lock, t: usize) -> Entry
    requires { At l.old t }
    ensures { Makes z t (UpgradeSwap (word_of (seen l.old t))) l.old l.new result }
{
    let v = l[Cell::ROOT];
    let old = l[Cell::SEEN + t];
    if v == old {
        goes_to(l, t, Pc::WRITING);
        swapped(l, Cell::ROOT, Packed::CLOSED)
    } else {
        after_upgrade_look(l, t, v);
        failed(l, t, Cell::ROOT)
    }
}

// ---- downgrade

// The sleeping readers leave the queue, if there are any.
pub fn downgrade_next(z: Sizes, l: &mut Lock, t: usize) -> Entry
    requires { At l.old t }
    ensures { Makes z t DowngradeNext l.old l.new result }
{
    let b = l[Cell::READERS];
    write_readers(l, 0);
    goes_with(l, t, Pc::DOWNGRADE_STORE, b);
    did(Entry::QUEUED, Entry::MUTEX)
}

// The thread itself is counted with them.
pub fn downgrade_store(z: Sizes, l: &mut Lock, t: usize) -> Entry
    requires { At l.old t }
    ensures { Makes z t (DowngradeStore (seen l.old t)) l.old l.new result }
{
    let n = group_size(l[Cell::SEEN + t]);
    stores(z, l, t, Pc::DOWNGRADE_FREE, 1 + n)
}

// With nobody to wake the call ends here.
pub fn downgrade_release(z: Sizes, l: &mut Lock, t: usize) -> Entry
    requires { At l.old t }
    ensures { Makes z t (DowngradeRelease (seen l.old t)) l.old l.new result }
{
    if l[Cell::SEEN + t] == 0 {
        goes_reading(l, t);
        write_mutex(l, Cell::FREE);
        did(Entry::RELEASED, Entry::MUTEX)
    } else {
        releases(z, l, t, Pc::DOWNGRADE_WAKE)
    }
}

// The looks' number has no further use.
pub fn downgrade_wake(z: Sizes, l: &mut Lock, t: usize) -> Entry
    requires { At l.old t }
    ensures { Makes z t (DowngradeWake (seen l.old t)) l.old l.new result }
{
    let members = l[Cell::SEEN + t];
    wake_all(l, members, Pc::READING);
    goes_reading(l, t);
    did(Entry::WOKEN, Entry::MUTEX)
}
