// The function that C and Rust link to run a site at lent turns (include/lock_bench.h). It does what the library
// function that it calls does, and has its contract. It is in a library of its own for the reason that the dispatcher's
// is (docs/DECISIONS.md, 83).
#![tactic(auto)]

ghost use Rattle.site_report.specs.Sheeted.{SheetsSite};

// Runs a site at the lent turns, and writes the sheet of what that cost.
#[unsafe(no_mangle)]
pub extern "C" fn site_sheet(site: &[u8], turns: &[u8], sheet: &mut [u8]) -> usize
    ensures { SheetsSite site.now turns.now sheet.old sheet.new result }
{
    site_report::sheet_site(site, turns, sheet).unwrap_or(0)
}
