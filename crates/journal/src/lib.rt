// The journal of a run: the entry of each row that a loop made.
#![tactic(auto)]

ghost use Rattle.std.specs.Prelude.{◌≡◌, ◌+◌, ◌≤◌, ◌<◌, length, set};

use lock::Entry;

// One byte of one of the journal's arrays.
fn put(array: &mut [u8], at: usize, byte: u8)
    requires { at < length array.old }
    ensures { array.new ≡ set array.old at byte }
{
    array[at] = byte;
}

// Writes the entry of row i: its kind into the journal's first array, its word into the second, which starts behind the
// first.
pub fn enter(journal: &mut [u8], rows: usize, i: usize, entry: &Entry)
    requires { (i < rows) × (rows + rows ≤ length journal.old) }
    ensures { journal.new ≡ set (set journal.old i entry.now.kind) (rows + i) entry.now.word }
{
    put(journal, i, entry.kind);
    put(&mut journal[rows..], i, entry.word);
}
