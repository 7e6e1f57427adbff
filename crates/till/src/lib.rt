// The credit table of document 02's request Twelve: the till file, the table in place and its room lines. Nothing here
// knows of a lock: the bench says which rows may book, the crate `settling` settles them, and the crate `credit` brings
// both together.
#![tactic(auto)]

ghost use Rattle.std.specs.Prelude.{◌≡◌, ◌+◌, ◌*◌, ◌<◌, ◌&&◌, leb, eqb, length};
ghost use Rattle.lock.specs.File.{within};
ghost use Rattle.lock.specs.Refusal.{answer_number};
ghost use Rattle.till.specs.Till.{till_of, roomed, is_till, till_refusal};
ghost use Rattle.till.specs.Rooms.{room_line, room_lines};
ghost use Rattle.till.specs.View.{ledger_of};
ghost use Rattle.text.specs.Page.{Fits, Adds};

use file::{byte_at, is_within};
use lock::Refusal;
use text::Page;

// The table: 64 numbers, behind a reference wherever they go. The balance of room q is at place q.
// Kept: one array, and no struct with two halves: `settling::settle` and `credit::run_file` promise all 64 numbers of it
// (specs/View `table_of`).
pub type Ledger = [u64; 64];

pub struct Place {}

impl Place {
    // The marks: 1 for an item that is booked.
    pub const MARKS: usize = 32;
}

// ---- the till file

pub fn rooms_of(till: &[u8]) -> usize
    ensures { (result ≡ (till_of till.now).rooms) × (result < 256) }
{
    byte_at(till, 0)
}

pub fn items_of(till: &[u8]) -> usize
    ensures { (result ≡ length (till_of till.now).items) × (result < 256) }
{
    byte_at(till, 1)
}

// Is each item of a room below `rooms`?
fn rooms_fit(till: &[u8], rooms: usize) -> bool
    ensures { result ≡ roomed rooms (till_of till.now).items }
{
    let items = items_of(till);
    for e in 0..items {
        if rooms <= byte_at(till, 2 + e) {
            return false;
        }
    }
    true
}

// Are the sizes in their ranges, and a file of this length as long as they say?
fn sizes_fit(rooms: usize, items: usize, len: usize) -> bool
    requires { items < 256 }
    ensures { result ≡ (within 1 32 rooms && leb items 32 && eqb len (2 + 3 * items)) }
{
    is_within(1, 32, rooms) && items <= 32 && len == 2 + 3 * items
}

fn is_till(till: &[u8]) -> bool
    ensures { result ≡ is_till till.now }
{
    let rooms = rooms_of(till);
    sizes_fit(rooms, items_of(till), till.len()) && rooms_fit(till, rooms)
}

// Refusal 10, of a file that is no till.
pub fn check_till(till: &[u8]) -> Result<(), Refusal>
    ensures { answer_number result ≡ till_refusal till.now }
{
    if is_till(till) {
        return Ok(());
    }
    Err(Refusal::NotATill)
}

// ---- the room lines

fn put_room(page: &mut Page, room: usize, balance: u64)
    requires { Fits page.old (room_line room balance) }
    ensures { Adds page.old (room_line room balance) page.new }
{
    page.put_field(b"room ", room);
    page.put_last(b" ", balance as usize);
}

pub fn put_rooms(page: &mut Page, till: &[u8], ledger: &Ledger)
    requires { (Fits page.old (room_lines (ledger_of (till_of till.now) ledger.now)))
        × (till_refusal till.now ≡ 0) × (length ledger.now ≡ 64) }
    ensures { Adds page.old (room_lines (ledger_of (till_of till.now) ledger.now)) page.new }
{
    let rooms = rooms_of(till);
    for (q, balance) in ledger[..rooms].iter().enumerate() {
        put_room(page, q, *balance);
    }
}
