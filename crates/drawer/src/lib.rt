// The dispatcher at turns that are lent: a list of bytes, each the number of a thread. Where that thread is able to
// move it gets the step; else the turn is passed over, as is a turn of T or more. Files, refusals, buffers and what
// comes back are the dispatcher's (crate `dispatcher`), and so is a step (crate `dispatch_step`).
#![tactic(auto)]

ghost use Rattle.std.specs.Prelude.{◌≡◌, ◌≤◌, ℕ, List, length, eqb, IfOk, IsOkUnless, ⊤};
ghost use Rattle.lock.specs.declared.Refusal.TheVariants.{SheetTooSmall};
ghost use Rattle.text.specs.Asked.{length_of};
ghost use Rattle.laws.specs.Sleeping.{bit_at};
ghost use Rattle.dispatch_model.specs.Dispatch.{by_turns};
ghost use Rattle.dispatch_model.proofs.Order.{by-turns-lawful};
ghost use Rattle.dispatcher.specs.Answer.{DrawAnswers, DrawSheeted};

use dispatcher::{Choice, give_file, give_sheet};
use lock::{Ran, Refusal};
use turn::Locks;

// Is thread t in the set?
fn is_able(able: u64, t: usize) -> bool
    ensures { result ≡ eqb (bit_at able t) 1 }
{
    if 64 <= t {
        return false;
    }
    (able >> t) % 2 == 1
}

// The turns that are left.
#[derive(Drop)]
pub struct LentTurns<'a> {
    pub left: &'a [u8],
}

impl<'a> Choice for LentTurns<'a> {
    ghost Kept = { List ℕ };

    ghost kept = { λ r. r.left.now };

    ghost right = { λ T ts. ⊤ };

    ghost chooser = { by_turns };

    ghost lawful = { by-turns-lawful };

    // Where nobody is able to move any more, the turns left would all be passed over.
    fn next(&mut self, threads: usize, able: u64) -> Option<usize> {
        while let Some((turn, behind)) = self.left.split_first() {
            self.left = behind;
            let t = usize::from(*turn);
            if is_able(able, t) {
                return Some(t);
            }
            if able == 0 {
                return None;
            }
        }
        None
    }
}

// Checks a file of wanted calls, gives steps at the lent turns on the caller's two locks, which it makes fresh, and
// writes them as a schedule into the lent buffer; all else is as `dispatcher::dispatch_file` has it.
pub fn draw_file(
    file: &[u8],
    turns: &[u8],
    schedule: &mut [u8],
    page: usize,
    locks: &mut Locks,
) -> Ran
    ensures { DrawAnswers turns.now file.now schedule.old schedule.new
        page locks.old locks.new result }
{
    let mut choice = LentTurns { left: turns };
    give_file(file, &mut choice, schedule, page, locks)
}

// Draws a schedule of a file of wanted calls at the lent turns, and writes the sheet; buffers and lengths as
// `dispatcher::sheet_file` has them.
pub fn sheet_file(
    file: &[u8],
    turns: &[u8],
    schedule: &mut [u8],
    sheet: &mut [u8],
) -> Result<usize, Refusal>
    ensures sheeted { DrawSheeted turns.now file.now
        schedule.old schedule.new sheet.old sheet.new (length_of result) }
    ensures refused { IsOkUnless result SheetTooSmall }
    ensures roomy { IfOk result (λ len. 8192 ≤ length sheet.old) }
{
    let mut choice = LentTurns { left: turns };
    give_sheet(file, &mut choice, schedule, sheet)
}
