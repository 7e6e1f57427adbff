// The functions that C and Rust link (include/lock_bench.h), but for the dispatcher's, which the crate `capi_dispatch`
// has. Each does what the library function that it calls does, and has its contract: C has 0 for a refused buffer.
#![tactic(auto)]

ghost use Rattle.bench.specs.Sheeted.{Sheeted};
ghost use Rattle.credit.specs.Sheeted as credit;
ghost use Rattle.plain_report.specs.Report as plain;
ghost use Rattle.ticket_report.specs.Report as ticket;

// Runs a schedule file, fills its journal, and writes its sheet.
#[unsafe(no_mangle)]
pub extern "C" fn bench_sheet(file: &[u8], journal: &mut [u8], sheet: &mut [u8]) -> usize
    ensures { Sheeted file.now
        journal.old journal.new sheet.old sheet.new result }
{
    bench::sheet_file(file, journal, sheet).unwrap_or(0)
}

// Runs a schedule file with a till file, fills its journal, and writes its sheet.
#[unsafe(no_mangle)]
pub extern "C" fn credit_sheet(
    file: &[u8],
    till: &[u8],
    journal: &mut [u8],
    sheet: &mut [u8],
) -> usize
    ensures { credit.Sheeted file.now
        till.now journal.old journal.new sheet.old sheet.new result }
{
    credit::sheet_file(file, till, journal, sheet).unwrap_or(0)
}

// Runs a file of calls on the plain engine, and writes its sheet.
#[unsafe(no_mangle)]
pub extern "C" fn plain_sheet(file: &[u8], sheet: &mut [u8]) -> usize
    ensures { plain.Sheeted file.now sheet.old sheet.new result }
{
    plain_report::sheet_file(file, sheet).unwrap_or(0)
}

// Runs a ticket file on the ticket lock, and writes its sheet.
#[unsafe(no_mangle)]
pub extern "C" fn ticket_sheet(file: &[u8], sheet: &mut [u8]) -> usize
    ensures { ticket.Sheeted file.now sheet.old sheet.new result }
{
    ticket_report::sheet_file(file, sheet).unwrap_or(0)
}
