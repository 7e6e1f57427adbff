// The function that C and Rust link to draw a schedule at lent turns (include/lock_bench.h). It does what the library
// function that it calls does, and has its contract. It is in a library of its own for the reason that the dispatcher's
// is (docs/DECISIONS.md, 83).
#![tactic(auto)]

ghost use Rattle.dispatcher.specs.Answer.{DrawSheeted};

// Gives steps at the lent turns to the threads of a file of wanted calls, hands them back as a schedule, and writes the
// sheet.
#[unsafe(no_mangle)]
pub extern "C" fn draw_sheet(
    file: &[u8],
    turns: &[u8],
    schedule: &mut [u8],
    sheet: &mut [u8],
) -> usize
    ensures { DrawSheeted turns.now file.now
        schedule.old schedule.new sheet.old sheet.new result }
{
    drawer::sheet_file(file, turns, schedule, sheet).unwrap_or(0)
}
