// The text of a stored schedule's runs, with a till or without one, made in a lent buffer. Each function writes one
// piece of it, as those of the crate `text` do, and has their contract: the piece has room, and then it stands there.
// `put_runs` writes the whole text and asks nothing.
#![tactic(auto)]

ghost use Rattle.std.specs.Prelude.{◌≡◌, ◌≤◌, length, is_some};
ghost use Rattle.text.specs.Page.{Fits, Adds};
ghost use Rattle.credit.specs.Sheeted.{bytes_of};
ghost use Rattle.stored.specs.Runs.{journal_rows, blank, title_line, journal_lines};
ghost use Rattle.stored.specs.Its.{its_sheet, its_journal, its_tail, its_left, its_run, its_shorter_run};
ghost use Rattle.stored.specs.Its.{its_longer_run, its_text};
ghost use Rattle.stored.specs.Stored.{no_room, Stored};

use bench::Locks;
use credit::sheet_if;
use file::rows_of;
use hex_text::put_line;
use text::Page;
use till::Ledger;

// A stored schedule: its name, its file, its till file, if it has one, and the rows that its journal has room for.
#[derive(Clone, Copy)]
struct Schedule<'a> {
    name: &'a [u8],
    file: &'a [u8],
    till: Option<&'a [u8]>,
    rows: usize,
}

// ---- the pieces of a run

fn put_title(page: &mut Page, name: &[u8], journal: usize)
    requires { Fits page.old (title_line name.now journal) }
    ensures { Adds page.old (title_line name.now journal) page.new }
{
    page.put_text(b"run ");
    page.put_text(name);
    page.put_last(b" journal ", journal);
}

// Runs the file with the journal, and writes its sheet and what stands behind that. The buffer that the sheet is asked
// for with is longer than it need be, so that it is not refused, and ee all over.
fn put_sheet(page: &mut Page, schedule: Schedule, journal: &mut [u8])
    requires { Fits page.old (its_sheet schedule (length journal.old)) }
    ensures { Adds page.old (its_sheet schedule.entry (length journal.old)) page.new
        × (journal.new ≡ its_journal schedule.entry journal.old) }
{
    let mut sheet = [0xeeu8; 8200];
    let len = sheet_if(schedule.file, schedule.till, journal, &mut sheet).unwrap_or(0);
    page.put_text(&sheet[..len]);
    let end = len + 4;
    put_line(page, b"behind", &sheet[len..end]);
}

// The journal's two arrays: the second starts at byte `rows`.
fn put_journal(page: &mut Page, journal: &[u8], rows: usize)
    requires { Fits page.old (journal_lines rows journal.now) × (rows ≤ length journal.now) }
    ensures { Adds page.old (journal_lines rows journal.now) page.new }
{
    put_line(page, b"kinds", &journal[..rows]);
    put_line(page, b"words", &journal[rows..]);
}

// Runs the file with the journal by the runner: the bench's, or with a till the credit table's. Gives the rows not run.
fn not_run<'a>(schedule: Schedule<'a>, journal: &mut [u8]) -> &'a [u8]
    ensures { result.now ≡ its_tail schedule.entry (length journal.old) }
{
    let mut locks: Locks = [[0; 512]; 2];
    let mut ledger: Ledger = [0; 64];
    let mut answer: u8 = 0;
    let mut taken: usize = 0;
    match schedule.till {
        Some(till) => credit::run(
            schedule.file,
            till,
            journal,
            &mut locks,
            &mut ledger,
            &mut answer,
            &mut taken,
        ),
        None => bench::run(schedule.file, journal, &mut locks, &mut answer, &mut taken),
    }
}

fn put_left(page: &mut Page, schedule: Schedule, journal: &mut [u8])
    requires { Fits page.old (its_left schedule (length journal.old)) }
    ensures { Adds page.old (its_left schedule.entry (length journal.old)) page.new }
{
    let left = not_run(schedule, journal);
    put_line(page, b"left", left);
}

// ---- the runs

// One run of the file, with the journal that is lent. Once that is listed, it is lent again to the runner.
fn put_run(page: &mut Page, schedule: Schedule, journal: &mut [u8])
    requires { Fits page.old (its_run schedule journal.old) × (schedule.rows ≤ length journal.old) }
    ensures { Adds page.old (its_run schedule.entry journal.old) page.new }
{
    put_title(page, schedule.name, journal.len());
    put_sheet(page, schedule, journal);
    put_journal(page, journal, schedule.rows);
    put_left(page, schedule, journal);
}

// One run of the file, with a journal of `len` bytes, each of which is ee before it.
fn put_blank_run(page: &mut Page, schedule: Schedule, len: usize)
    requires { Fits page.old (its_run schedule (blank len)) × (schedule.rows ≤ len) × (len ≤ 8192) }
    ensures { Adds page.old (its_run schedule.entry (blank len)) page.new }
{
    let mut journal = [0xeeu8; 8192];
    put_run(page, schedule, &mut journal[..len]);
}

// The run with a byte less than the journal needs, where it needs one.
fn put_shorter_run(page: &mut Page, schedule: Schedule)
    requires { Fits page.old (its_shorter_run schedule) × (schedule.rows ≤ 4096) }
    ensures { Adds page.old (its_shorter_run schedule.entry) page.new }
{
    if 0 < schedule.rows {
        put_blank_run(page, schedule, 2 * schedule.rows - 1);
    }
}

// The run with two bytes more than the journal needs, where it has room for at most 1,024 rows.
fn put_longer_run(page: &mut Page, schedule: Schedule)
    requires { Fits page.old (its_longer_run schedule) }
    ensures { Adds page.old (its_longer_run schedule.entry) page.new }
{
    if schedule.rows <= 1024 {
        put_blank_run(page, schedule, 2 * schedule.rows + 2);
    }
}

// ---- the whole text

// The rows that a file's journal has room for: those that the file names, but at most 4,096, and none for a file
// without sizes.
fn journal_rows(file: &[u8]) -> usize
    ensures { (result ≡ journal_rows file.now) × (result ≤ 4096) }
{
    if file.len() < 5 {
        return 0;
    }
    rows_of(file).min(4096)
}

// Is a name of this length too long, or a buffer of this length too small?
fn no_room(name: usize, room: usize) -> bool
    ensures { result ≡ no_room name room }
{
    1024 < name || room < 98304
}

// All runs of the file: with the journal that it needs, with a shorter one, and with a longer one.
fn put_all(page: &mut Page, schedule: Schedule)
    requires { Fits page.old (its_text schedule) × (schedule.rows ≤ 4096) }
    ensures { Adds page.old (its_text schedule.entry) page.new }
{
    put_blank_run(page, schedule, 2 * schedule.rows);
    put_shorter_run(page, schedule);
    put_longer_run(page, schedule);
}

// The text of all runs of a file, with the till file, if there is one, at the front of the buffer. Gives the text's
// length; where there is no room, none is given and nothing is written.
pub fn put_runs(buf: &mut [u8], name: &[u8], file: &[u8], till: Option<&[u8]>) -> Option<usize>
    ensures { Stored name.now (is_some till.entry) file.now (bytes_of till.entry)
        buf.old buf.new result }
{
    if no_room(name.len(), buf.len()) {
        return None;
    }
    let rows = journal_rows(file);
    let schedule = Schedule {
        name,
        file,
        till,
        rows,
    };
    let mut page = Page::new(buf);
    put_all(&mut page, schedule);
    Some(page.at)
}
