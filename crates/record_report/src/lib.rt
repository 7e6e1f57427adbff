// The sheet of a record.
#![tactic(auto)]

ghost use Rattle.std.specs.Prelude.{◌≡◌, ◌≤◌, length, IfOk, IsOkUnless};
ghost use Rattle.lock.specs.declared.Refusal.TheVariants.{SheetTooSmall};
ghost use Rattle.text.specs.Page.{Fits, Adds};
ghost use Rattle.text.specs.Asked.{Asked, length_of};
ghost use Rattle.pair.specs.Sheet.{pair_lines};
ghost use Rattle.turn.specs.Turn.{pair_in};
ghost use Rattle.record_model.specs.Record.{Told};
ghost use Rattle.record_model.specs.Told.{told_of};
ghost use Rattle.record_model.specs.Sheet.{value_field, entry_line, entry_line_if, verdict_sheet};
ghost use Rattle.record_hold.specs.Holds.{verdict_in};
ghost use Rattle.record_report.specs.Numbers.{told_in};
ghost use Rattle.record_report.specs.Sheeted.{SheetsRecord};

use file::{is_within, sizes_of};
use lock::{Refusal, Sizes};
use record_hold::{Locks, hold};
use record_model::NotHeld;
use report::{put_answer, put_state};
use text::{Page, check_room};

// ---- what is told of a record

// In numbers, as its sheet shows it: 0, or the answer that ended the record; the rows held before that; and what the
// bench gives at the row that is another than the record's (11, 12): its kind, its word, and that word's value after it.
#[derive(Clone, Copy)]
pub struct ToldNumbers {
    pub answer: u8,
    pub held: usize,
    pub kind: u8,
    pub word: u8,
    pub value: u64,
}

// Whatever the sheet of a record can be written of.
pub trait Telling: Copy {
    // What it tells, as the definitions have it.
    ghost told: { Self → Told };

    fn numbers(self) -> ToldNumbers
        ensures { told_in result ≡ told self };
}

// Any five numbers.
impl Telling for ToldNumbers {
    ghost told = { told_in };

    fn numbers(self) -> ToldNumbers {
        self
    }
}

// What holding a record gives.
//
// Kept: the number for no value. A word's value may be any number, and `value_field` has `-` for this one too.
impl Telling for Result<usize, NotHeld> {
    ghost told = { told_of };

    fn numbers(self) -> ToldNumbers {
        match self {
            Ok(held) => ToldNumbers {
                answer: 0,
                held,
                kind: 0,
                word: 0,
                value: 4294967295,
            },
            Err(not_held) => {
                let effect = not_held.reason.effect();
                ToldNumbers {
                    answer: not_held.reason.refusal().number(),
                    held: not_held.held,
                    kind: effect.entry.kind,
                    word: effect.entry.word,
                    value: effect.value.unwrap_or(4294967295),
                }
            }
        }
    }
}

// ---- the sheet

// The value at the end of a line, `-` for none, which is 4,294,967,295.
fn put_value(page: &mut Page, v: u64)
    requires { Fits page.old (value_field v) }
    ensures { Adds page.old (value_field v) page.new }
{
    if v == 4294967295 {
        page.put_text(b" -\n");
    } else {
        page.put_last(b" ", v as usize);
    }
}

fn put_entry(page: &mut Page, kind: u8, word: u8, value: u64)
    requires { Fits page.old (entry_line kind word value) }
    ensures { Adds page.old (entry_line kind word value) page.new }
{
    page.put_field(b"entry ", kind as usize);
    page.put_field(b" ", word as usize);
    put_value(page, value);
}

// The second line, after 11 and 12.
fn put_entry_if(page: &mut Page, told: ToldNumbers)
    requires { Fits page.old (entry_line_if (told_in told)) }
    ensures { Adds page.old (entry_line_if (told_in told)) page.new }
{
    if 10 < told.answer {
        put_entry(page, told.kind, told.word, told.value);
    }
}

fn put_both(page: &mut Page, z: Sizes, locks: &Locks)
    requires { Fits page.old (pair_lines z (pair_in locks.now)) }
    ensures { Adds page.old (pair_lines z (pair_in locks.now)) page.new }
{
    put_state(page, z, &locks[0]);
    put_state(page, z, &locks[1]);
}

// The sheet of what holding a record of these sizes told and of the locks that it left. Refusals 1 to 3, of the
// record's bytes, leave no state.
fn put_told(page: &mut Page, z: Sizes, told: ToldNumbers, locks: &Locks)
    requires { Fits page.old (verdict_sheet z (verdict_in (told_in told) locks.now)) }
    ensures { Adds page.old (verdict_sheet z (verdict_in (told_in told) locks.now)) page.new }
{
    put_answer(page, told.answer, told.held);
    if is_within(1, 3, told.answer as usize) {
        return;
    }
    put_entry_if(page, told);
    put_both(page, z, locks);
}

// Writes it at the front of a buffer, and gives its length; nothing is written into a buffer that is below 8,192 bytes.
pub fn write_told<T: Telling>(
    sheet: &mut [u8],
    z: Sizes,
    told: T,
    locks: &Locks,
) -> Result<usize, Refusal>
    ensures asked { Asked (verdict_sheet z (verdict_in (T.told told) locks.now))
        sheet.old sheet.new (length_of result) }
    ensures refused { IsOkUnless result SheetTooSmall }
    ensures roomy { IfOk result (λ len. 8192 ≤ length sheet.old) }
{
    check_room(sheet.len())?;
    let mut page = Page::new(sheet);
    put_told(&mut page, z, told.numbers(), locks);
    Ok(page.at)
}

// Holds a record, and writes its sheet.
pub fn sheet_record(file: &[u8], sheet: &mut [u8]) -> Result<usize, Refusal>
    ensures sheets { SheetsRecord file.now sheet.old sheet.new (length_of result) }
    ensures refused { IsOkUnless result SheetTooSmall }
    ensures roomy { IfOk result (λ len. 8192 ≤ length sheet.old) }
{
    let mut locks: Locks = [[0; 512]; 2];
    let told = hold(file, &mut locks);
    write_told(sheet, sizes_of(file), told, &locks)
}
