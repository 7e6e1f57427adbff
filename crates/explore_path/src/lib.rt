// The schedule of a record: the rows by which the search came to it, as a schedule file. The store may hold anything:
// what is written is what its numbers name, and where an exploration left them, those rows lead to the record's state
// (`explore_search` specs/Search `Explores`).
#![tactic(auto)]

ghost use Rattle.std.specs.Prelude.{◌≡◌, ◌+◌, ◌*◌, ◌<◌, ◌≤◌, length, get_or, unwrap_or, IfSome};
ghost use Rattle.explore_store.specs.Store.{record_at};
ghost use Rattle.explore_path.specs.Schedule.{RowsFrom, is_there, Schedules};

use file::is_within;

// The head of record i, 0 where the store has none.
fn head_at(st: &[u64], i: usize) -> u64
    requires { i < 2305843009213693952 }
    ensures { (result ≡ (record_at st.now i).head) × (result < 18446744073709551616) }
{
    st.get(8 * i).copied().unwrap_or(0)
}

// The s rows of record i, from the last to the first.
fn put_rows(st: &[u64], i: usize, s: usize, out: &mut [u8])
    requires { (i < 2305843009213693952) × (5 + 2 * s ≤ length out.old) }
    ensures { RowsFrom st.now i s 0 out.old out.new }
{
    let mut at = i;
    for k in (0..s).rev() {
        let head = head_at(st, at);
        out[5 + k] = (head / 256 % 256) as u8;
        out[5 + s + k] = (head % 256) as u8;
        at = (head / 4294967296) as usize;
    }
}

// Is there such a record, for a lock of such sizes?
fn is_there(nodes: usize, fan: usize, threads: usize, st: &[u64], i: usize) -> bool
    ensures { result ≡ is_there nodes fan threads st.now i }
{
    is_within(1, 8, nodes) && is_within(1, 16, fan) && is_within(1, 8, threads) && i < st.len() / 8
}

// Writes the schedule file of record i, and gives its length; or writes nothing, and gives none.
pub fn schedule_of(
    nodes: usize,
    fan: usize,
    threads: usize,
    st: &[u64],
    i: usize,
    out: &mut [u8],
) -> Option<usize>
    ensures schedules { Schedules nodes fan threads st.now i out.old out.new (unwrap_or result 0) }
    ensures some { IfSome result (λ n. 0 < n) }
{
    if !is_there(nodes, fan, threads, st, i) {
        return None;
    }
    let s = (head_at(st, i) / 65536 % 65536) as usize;
    if 4096 < s || out.len() < 5 + 2 * s {
        return None;
    }
    out[0] = nodes as u8;
    out[1] = fan as u8;
    out[2] = threads as u8;
    out[3] = (s % 256) as u8;
    out[4] = (s / 256) as u8;
    put_rows(st, i, s, out);
    Some(5 + 2 * s)
}
