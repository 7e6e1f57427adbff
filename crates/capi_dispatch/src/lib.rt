// The dispatcher's function that C and Rust link (include/lock_bench.h). It does what the library function that it
// calls does, and has its contract. It is in a library of its own so that in each library `turn::row` has one caller,
// into whose loop the compiler puts it (docs/DECISIONS.md, 83).
#![tactic(auto)]

ghost use Rattle.dispatcher.specs.Answer.{Sheeted};

// Gives steps to the threads of a file of wanted calls, hands the steps back as a schedule, and writes the sheet.
#[unsafe(no_mangle)]
pub extern "C" fn dispatch_sheet(file: &[u8], schedule: &mut [u8], sheet: &mut [u8]) -> usize
    ensures { Sheeted file.now
        schedule.old schedule.new sheet.old sheet.new result }
{
    dispatcher::sheet_file(file, schedule, sheet).unwrap_or(0)
}
