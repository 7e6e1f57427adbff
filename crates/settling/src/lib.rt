// The bookings of a run, settled in place: a booking in the credit table (crate `till`), and the rows of a run gone over
// afterwards, by their orders and their journal entries.
#![tactic(auto)]

ghost use Rattle.std.specs.Prelude.{◌≡◌, ◌<◌, pos, ◌+ℤ◌, ◌-◌, true, false, MatchOption, length, get_or};
ghost use Rattle.till.specs.Till.{signed, amount_at, till_of};
ghost use Rattle.till.specs.Booking.{natural, books};
ghost use Rattle.till.specs.View.{none_booked, Clean};
ghost use Rattle.settling.specs.Settles.{paid_as, Bookable, Books, RowBookable, SettlesRow, Settleable, Settles};

use file::{byte_at, two_bytes};
use lock::Entry;
use till::{Ledger, Place};

// ---- the table

fn open(ledger: &mut Ledger)
    ensures { ledger.new ≡ none_booked }
{
    *ledger = [0; 64];
}

// A balance with an amount of two bytes, which is negative from 32,768 on; none where it would be below 0, and the
// amount is denied. All numbers here are unsigned.
fn pay(balance: u64, amount: u64) -> Option<u64>
    requires { (balance < 4294967296) × (amount < 65536) }
    ensures { result ≡ paid_as (natural (pos balance +ℤ signed amount)) }
{
    if amount < 32768 {
        return Some(balance + amount);
    }
    balance.checked_sub(65536 - amount)
}

// The two bytes of the amount e.
fn amount_of(till: &[u8], e: usize) -> u64
    requires { e < 32 }
    ensures { (result ≡ amount_at till.now (get_or till.now 1 0) e) × (result < 65536) }
{
    let at = 2 + byte_at(till, 1) + 2 * e;
    two_bytes(till, at, at + 1) as u64
}

// The item that a row of this order books, if the row is a booking: 96 + e is for item e.
fn booked_item(order: u8) -> Option<usize>
    ensures { MatchOption result (books order ≡ false) (λ e. (books order ≡ true) × (e ≡ order - 96)) }
{
    match order {
        96..=127 => Some((order - 96) as usize),
        _ => None,
    }
}

// Books item e: gives the kind, and stores where it is 11.
// Kept: a number for the kind, as the constants of `lock::Entry` are (document 01, "Forms to use in the code").
#[tactic(auto, using(crate::proofs::Going::books_again))]
fn book(till: &[u8], ledger: &mut Ledger, e: usize) -> u8
    requires { Bookable till.now ledger.old e }
    ensures { Books till.now e ledger.old ledger.new result }
{
    if ledger[Place::MARKS + e] == 1 {
        return Entry::REPEATED;
    }
    let room = byte_at(till, 2 + e);
    let Some(balance) = pay(ledger[room], amount_of(till, e)) else {
        return Entry::BOOKING_DENIED;
    };
    ledger[room] = balance;
    ledger[Place::MARKS + e] = 1;
    Entry::BOOKED
}

// ---- settling

// One row: the kind of its entry, which is another where the row books.
fn settle_row(till: &[u8], ledger: &mut Ledger, order: u8, kind: u8) -> u8
    requires { RowBookable till.now ledger.old order × (Clean (till_of till.now) ledger.old) }
    ensures { SettlesRow till.now order kind ledger.old ledger.new result }
{
    match booked_item(order) {
        Some(e) => book(till, ledger, e),
        None => kind,
    }
}

// Settles the first `taken` rows that the bench took: on a table in which nothing is booked, each row that books is
// booked, and the kind of its entry says what became of it. It reads the orders and the first array of the journal, and
// writes nothing else.
pub fn settle(till: &[u8], orders: &[u8], taken: usize, journal: &mut [u8], ledger: &mut Ledger)
    requires { Settleable till.now orders.now taken journal.old }
    ensures { Settles till.now
        orders.now taken journal.old journal.new ledger.new }
{
    open(ledger);
    for (i, order) in orders[..taken].iter().enumerate() {
        journal[i] = settle_row(till, ledger, *order, journal[i]);
    }
}
