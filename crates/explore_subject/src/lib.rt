// Complete exploration, for small sizes: every state that rows lead to from the start, breadth first, in memory that the
// caller lends. Where the answer is Ok the states found are all there are, for schedules of any length (specs/Search
// `Explores`); so that a state of some kind is not among them is a theorem.
//
// What is explored is a `Subject`: one lock, here, or two over one set of threads (`explore_pair`).
#![tactic(auto)]

ghost use Rattle.std.specs.Prelude.{◌≡◌, ℕ, List, true, ◌+◌, ◌-◌, ◌*◌, ◌<◌, ◌≤◌, length, replicate, Err, is_ok, OnOk};
ghost use Rattle.lock.specs.File.{InRange};
ghost use Rattle.lock.specs.Run.{step};
ghost use Rattle.lock.specs.State.{State};
ghost use Rattle.lock.specs.declared.Entry.{Entry};
ghost use Rattle.lock.specs.declared.Sizes.{Sizes};
ghost use Rattle.cells.specs.View.{state_of};
ghost use Rattle.rows.specs.Outcome.{Comes};
ghost use Rattle.step.specs.Reached.{Ready};
ghost use Rattle.explore_store.specs.Store.{record_at, depth_at, names_of};
ghost use Rattle.explore_subject.specs.Search.{Subject, one, Lawful, Sound, Next, Trying, Only, OfThread, OfAny, Tries};
ghost use Rattle.explore_subject.specs.Search.{Expands, order_of, Small, sizes_for, halt_number, figures, Explores};

use cells::Lock;
use execute::go_on;
use explore_canonical::normal;
use explore_store::{NoRoom, States, fits, put_record, record_of, unpack};
use lock::{Entry, Refusal, Sizes};
use orders::begin;
use step::fresh;

// Why an exploration is not complete.
#[derive(Clone, Copy, Debug, PartialEq, Eq)]
pub enum Halt {
    // The store was too small, or a lock did not fit a record.
    NoRoom,
    // The sizes are out of range.
    SizeOutOfRange,
}

// What an exploration came to: whether it is complete; the number of states found; and the depth of the deepest.
#[derive(Clone, Copy)]
pub struct Explored {
    pub answer: Result<(), Halt>,
    pub count: usize,
    pub depth: u64,
}

impl Explored {
    // No state was found.
    pub fn none(halt: Halt) -> Explored
        ensures { result ≡ record { answer = Err halt; count = 0; depth = 0 } }
    {
        Explored {
            answer: Err(halt),
            count: 0,
            depth: 0,
        }
    }

    // The answer as C is given it.
    pub fn number(self) -> u8
        ensures { result ≡ (figures self).answer }
    {
        match self.answer {
            Ok(()) => 0,
            Err(Halt::NoRoom) => 1,
            Err(Halt::SizeOutOfRange) => 2,
        }
    }
}

// ---- what is explored

// A lock, or locks, on which rows are made in place, and the store of the states found.
pub trait Subject {
    // its sizes, and which rows are made
    type Setting: Copy;

    // the lock in place, or both
    type Place: Drop;

    // The machine and how numbers stand for its states; what the store holds, how many records, and what is lent to it.
    ghost State: { Type 0 };

    ghost Note: { Type 0 };

    ghost Seen: { Type 0 };

    ghost Names: { Type 0 };

    ghost subject: { Self.Setting → Subject State Note Self.Place Seen };

    ghost seen: { Self → Seen };

    ghost count: { Self → ℕ };

    ghost names: { Self → Names };

    // The sizes, how many orders are tried of each thread, and which order k is.
    ghost sizes: { Self.Setting → Sizes };

    ghost orders: { Self.Setting → ℕ };

    ghost order_at: { Self.Setting → ℕ → ℕ };

    // A place before anything is unpacked into it: all its numbers are 0.
    ghost blank: { Self.Place };

    fn threads(setting: Self::Setting) -> usize
        ensures { result ≡ (sizes setting).threads };

    fn orders(setting: Self::Setting) -> usize
        requires { Small (sizes setting) }
        ensures { result ≡ orders setting };

    fn order_at(setting: Self::Setting, k: usize) -> u8
        requires { (Small (sizes setting)) × (k < orders setting) }
        ensures { result ≡ order_at setting k };

    fn count(&self) -> usize
        ensures { result ≡ count self.now };

    // The head of record i.
    fn head(&self, setting: Self::Setting, i: usize) -> u64
        requires { (Sound (subject setting) (seen self.now) (count self.now)) × (i < count self.now) }
        ensures { result ≡ (record_at ((subject setting).heads (seen self.now)) i).head };

    fn blank() -> Self::Place
        ensures { result ≡ blank };

    // What record i stands for, in place.
    fn unpack(&self, setting: Self::Setting, i: usize, place: &mut Self::Place)
        requires { (Sound (subject setting) (seen self.now) (count self.now)) × (i < count self.now) }
        ensures { place.new ≡ (subject setting).at (seen self.now) i };

    // The start as record 0.
    fn start(&mut self, setting: Self::Setting) -> Result<(), NoRoom>
        requires { InRange (sizes setting) }
        ensures sound { OnOk result ((count self.new ≡ 1) × Sound (subject setting) (seen self.new) 1) }
        ensures same_references { names self.new ≡ names self.old };

    // One row of thread t from record i, made in place: the state that it leads to is looked up, or added.
    // Kept: a body for each subject, since what a row is on it, and which records keep it, is what differs.
    fn consider(
        &mut self,
        setting: Self::Setting,
        place: &mut Self::Place,
        i: usize,
        t: usize,
        order: u8,
    ) -> Result<(), NoRoom>
        requires { (Sound (subject setting) (seen self.old) (count self.old))
            × (Trying (subject setting) (seen self.old) (count self.old) i place.old)
            × (t < (sizes setting).threads) × (Small (sizes setting)) }
        ensures tries { Tries (subject setting) (Only t order) i (seen self.old) (count self.old)
            (seen self.new) (count self.new) place.new (is_ok result) }
        ensures same_references { names self.new ≡ names self.old };
}

// ---- the search

// All orders of thread t from record i.
fn try_orders<S: Subject>(
    states: &mut S,
    setting: S::Setting,
    place: &mut S::Place,
    i: usize,
    t: usize,
) -> Result<(), NoRoom>
    requires { (Sound (S.subject setting) (S.seen states.old) (S.count states.old))
        × (Trying (S.subject setting) (S.seen states.old) (S.count states.old) i place.old)
        × (t < (S.sizes setting).threads) × (Small (S.sizes setting)) }
    ensures tries { Tries (S.subject setting) (OfThread (S.order_at setting) (S.orders setting) t) i
        (S.seen states.old) (S.count states.old) (S.seen states.new) (S.count states.new) place.new (is_ok result) }
    ensures same_references { S.names states.new ≡ S.names states.old }
{
    for k in 0..S::orders(setting) {
        states.consider(setting, place, i, t, S::order_at(setting, k))?;
    }
    Ok(())
}

// All rows from record i.
fn try_threads<S: Subject>(
    states: &mut S,
    setting: S::Setting,
    place: &mut S::Place,
    i: usize,
) -> Result<(), NoRoom>
    requires { (Sound (S.subject setting) (S.seen states.old) (S.count states.old))
        × (Trying (S.subject setting) (S.seen states.old) (S.count states.old) i place.old) × (Small (S.sizes setting)) }
    ensures tries { Tries (S.subject setting) (OfAny (S.order_at setting) (S.orders setting) (S.sizes setting).threads) i
        (S.seen states.old) (S.count states.old) (S.seen states.new) (S.count states.new) place.new (is_ok result) }
    ensures same_references { S.names states.new ≡ S.names states.old }
{
    for t in 0..S::threads(setting) {
        try_orders(states, setting, place, i, t)?;
    }
    Ok(())
}

// The rows from record i, if its number and its depth leave room for a record of what they lead to.
fn expand<S: Subject>(states: &mut S, setting: S::Setting, i: usize) -> Result<(), NoRoom>
    requires { (Sound (S.subject setting) (S.seen states.old) (S.count states.old))
        × (Next ((S.subject setting).heads (S.seen states.old)) (S.count states.old) i) × (Small (S.sizes setting)) }
    ensures expands { Expands (S.subject setting) (OfAny (S.order_at setting) (S.orders setting) (S.sizes setting).threads) i
        (S.seen states.old) (S.count states.old) (S.seen states.new) (S.count states.new) (is_ok result) }
    ensures same_references { S.names states.new ≡ S.names states.old }
{
    let depth = states.head(setting, i) / 65536 % 65536;
    if 4294967295 < i || 65534 < depth {
        return Err(NoRoom);
    }
    let mut place = S::blank();
    states.unpack(setting, i, &mut place);
    try_threads(states, setting, &mut place, i)
}

// What was found, with the depth of the last record, which is the deepest.
fn told<S: Subject>(states: &S, setting: S::Setting, answer: Result<(), Halt>) -> Explored
    requires { Sound (S.subject setting) (S.seen states.now) (S.count states.now) }
    ensures { result ≡ record {
      answer = answer;
      count = S.count states.now;
      depth = depth_at ((S.subject setting).heads (S.seen states.now)) (S.count states.now - 1);
    } }
{
    let count = states.count();
    Explored {
        answer,
        count,
        depth: states.head(setting, count - 1) / 65536 % 65536,
    }
}

// Every record in turn, until no record is left that was not expanded.
pub fn search_all<S: Subject>(states: &mut S, setting: S::Setting) -> Explored
    requires { (Small (S.sizes setting))
        × (Lawful (S.subject setting) (OfAny (S.order_at setting) (S.orders setting) (S.sizes setting).threads)) }
    ensures explores { Explores (S.subject setting) (S.seen states.new) (figures result) }
    ensures sound { 0 < result.count → Sound (S.subject setting) (S.seen states.new) result.count }
    ensures same_references { S.names states.new ≡ S.names states.old }
{
    if states.start(setting).is_err() {
        return Explored::none(Halt::NoRoom);
    }
    let mut i: usize = 0;
    // Kept: a while, since each turn may add records behind those there are.
    while i < states.count() {
        if expand(states, setting, i).is_err() {
            return told(states, setting, Err(Halt::NoRoom));
        }
        i += 1;
    }
    told(states, setting, Ok(()))
}

// ---- one lock

// One row of thread t.
fn make_row(z: Sizes, l: &mut Lock, t: usize, order: u8) -> Result<Entry, Refusal>
    requires { Ready z l.old t }
    ensures { Comes l.old l.new result
        (step z (state_of l.old) (record { thread = t; order = order })) }
{
    if order == 0 {
        return go_on(z, l, t);
    }
    begin(z, l, t, order)
}

// Order k of those that are tried.
pub fn order_at(k: usize) -> u8
    requires { k < 37 }
    ensures { result ≡ order_of k }
{
    if k < 5 { k as u8 } else { (k + 59) as u8 }
}

impl<'a> Subject for States<'a> {
    type Setting = Sizes;

    type Place = Lock;

    ghost State = { State };

    ghost Note = { Entry };

    ghost Seen = { List ℕ };

    ghost Names = { ℕ × ℕ };

    ghost subject = { one };

    ghost seen = { λ s. s.records.now };

    ghost count = { λ s. s.count };

    ghost names = { names_of };

    ghost sizes = { λ z. z };

    ghost orders = { λ z. 5 + z.nodes };

    ghost order_at = { λ z. order_of };

    ghost blank = { replicate 512 0 };

    fn threads(z: Sizes) -> usize
        ensures { result ≡ z.threads }
    {
        z.threads
    }

    fn orders(z: Sizes) -> usize
        requires { Small z }
        ensures { result ≡ 5 + z.nodes }
    {
        5 + z.nodes
    }

    fn order_at(z: Sizes, k: usize) -> u8
        requires { (Small z) × (k < 5 + z.nodes) }
        ensures { result ≡ order_of k }
    {
        order_at(k)
    }

    fn count(&self) -> usize {
        self.count
    }

    fn head(&self, _z: Sizes, i: usize) -> u64 {
        self.records[8 * i]
    }

    fn blank() -> Lock
        ensures { result ≡ replicate 512 0 }
    {
        [0; 512]
    }

    fn unpack(&self, _z: Sizes, i: usize, l: &mut Lock) {
        unpack(self.record_at(i), l);
    }

    fn start(&mut self, z: Sizes) -> Result<(), NoRoom> {
        if self.records.len() < 8 {
            return Err(NoRoom);
        }
        let mut l: Lock = [0; 512];
        fresh(&mut l);
        let r = record_of(0, 0, 0, 0, &l);
        self.index.fill(0);
        self.count = 0;
        self.add(r)?;
        if fits(r, &l) { Ok(()) } else { Err(NoRoom) }
    }

    fn consider(
        &mut self,
        z: Sizes,
        l: &mut Lock,
        i: usize,
        t: usize,
        order: u8,
    ) -> Result<(), NoRoom> {
        if make_row(z, l, t, order).is_err() {
            return Ok(());
        }
        normal(l, z.threads);
        let old = self.record_at(i);
        let r = record_of(i, old.head / 65536 % 65536 + 1, t, order, l);
        let fit = fits(r, l);
        unpack(old, l);
        if !fit {
            return Err(NoRoom);
        }
        self.add(r)
    }
}

// Are these sizes that a record has room for?
pub fn are_small(nodes: usize, fan: usize, threads: usize) -> bool
    ensures { result ≡ true → Small (sizes_for nodes fan threads) }
{
    (1..=8).contains(&nodes) && (1..=16).contains(&fan) && (1..=8).contains(&threads)
}

// The exploration of a lock of N nodes with fan-out F and T threads: `st` is the store, eight numbers for each state,
// and `ix`, which is cleared first, the index, which should have some twice as many numbers as there are states.
pub fn explore(nodes: usize, fan: usize, threads: usize, st: &mut [u64], ix: &mut [u64]) -> Explored
    ensures { Explores (one (sizes_for nodes fan threads)) st.new (figures result) }
{
    if !are_small(nodes, fan, threads) {
        return Explored::none(Halt::SizeOutOfRange);
    }
    let z = Sizes {
        nodes,
        fan,
        threads,
        items: 0,
    };
    let mut states = States {
        records: st,
        index: ix,
        count: 0,
    };
    search_all(&mut states, z)
}
