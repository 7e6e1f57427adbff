// The function that C and Rust link to hold a record.
#![tactic(auto)]

ghost use Rattle.record_report.specs.Sheeted.{SheetsRecord};

// Holds a record, and writes its sheet into the buffer. Gives the sheet's length, or 0 where the buffer is below 8,192
// bytes and nothing is written into it.
//
// Kept: 0 for a refusal, in the C interface.
#[unsafe(no_mangle)]
pub extern "C" fn record_sheet(file: &[u8], sheet: &mut [u8]) -> usize
    ensures { SheetsRecord file.now sheet.old sheet.new result }
{
    record_report::sheet_record(file, sheet).unwrap_or(0)
}
