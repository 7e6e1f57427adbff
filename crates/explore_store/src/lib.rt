// The states that an exploration found: records of eight numbers, one state each, in a slice that the caller lends, and
// an index to find them by.
//
// Nothing is asked of the index, and nothing is proved of how a lock becomes numbers: a record counts only where the
// lock that it stands for was compared with the lock that it is for, number by number (`fits`).
#![tactic(auto)]

ghost use Rattle.std.specs.Prelude.{◌≡◌, true, ◌⊎◌, ◌+◌, ◌*◌, ◌<◌, ◌≤◌, length, IfSome, is_ok};
ghost use Rattle.explore_store.specs.Store.{record_at, stored, head_of, with_lock, with_thread, with_pair, lock_of};
ghost use Rattle.explore_store.specs.Store.{tree_number, lock_number, thread_number, pair_number, failures_number};
ghost use Rattle.explore_store.specs.Store.{record_of, SameKey, key_of, mixed, hash_of, names_of, Full, New, Adds};

use cells::{Cell, Lock, Packed};

// A state: how it was led to, the failures of threads 0 to 3 and of the other four, the words with the mutex and the
// queue, and the threads two by two.
// Kept: numbers packed into one another, since C lends the store as eight numbers for each state.
#[derive(Clone, Copy)]
pub struct Record {
    pub head: u64,
    pub failures: u64,
    pub others: u64,
    pub lock: u64,
    pub first: u64,
    pub second: u64,
    pub third: u64,
    pub fourth: u64,
}

// ---- records in the store

pub fn record_at(st: &[u64], i: usize) -> Record
    requires { 8 * i + 8 ≤ length st.now }
    ensures { result ≡ record_at st.now i }
{
    Record {
        head: st[8 * i],
        failures: st[8 * i + 1],
        others: st[8 * i + 2],
        lock: st[8 * i + 3],
        first: st[8 * i + 4],
        second: st[8 * i + 5],
        third: st[8 * i + 6],
        fourth: st[8 * i + 7],
    }
}

pub fn put_record(st: &mut [u64], n: usize, r: Record)
    requires { 8 * n + 8 ≤ length st.old }
    ensures { st.new ≡ stored st.old n r }
{
    st[8 * n] = r.head;
    st[8 * n + 1] = r.failures;
    st[8 * n + 2] = r.others;
    st[8 * n + 3] = r.lock;
    st[8 * n + 4] = r.first;
    st[8 * n + 5] = r.second;
    st[8 * n + 6] = r.third;
    st[8 * n + 7] = r.fourth;
}

// ---- the lock that a record stands for

// The words, the mutex and the queue's two numbers.
fn put_lock(l: &mut Lock, x: u64)
    requires { length l.old ≡ 512 }
    ensures { l.new ≡ with_lock l.old x }
{
    let y = x / 4294967296;
    l[0] = x % 256 + Packed::TREE * (y % 16);
    l[1] = Packed::TREE * (y / 16 % 16);
    l[2] = Packed::TREE * (y / 256 % 16);
    l[3] = Packed::TREE * (y / 4096 % 16);
    l[4] = Packed::TREE * (y / 65536 % 16);
    l[5] = Packed::TREE * (y / 1048576 % 16);
    l[6] = Packed::TREE * (y / 16777216 % 16);
    l[7] = Packed::TREE * (y / 268435456 % 16);
    l[Cell::MUTEX] = x / 256 % 256;
    l[Cell::READERS] = x / 65536 % 256;
    l[Cell::WRITERS] = x / 16777216 % 256;
}

// The numbers of thread t, and its place of the ring.
fn put_thread(l: &mut Lock, t: usize, x: u64, f: u64)
    requires { (length l.old ≡ 512) × (t < 8) }
    ensures { l.new ≡ with_thread l.old t x f }
{
    l[Cell::PC + t] = x % 64;
    l[Cell::NODE + t] = x / 64 % 8;
    l[Cell::ROUTE + t] = x / 512 % 8;
    l[Cell::BELOW + t] = x / 4096 % 8;
    l[Cell::SEEN + t] = x / 32768 % 256 + Packed::TREE * (x / 8388608 % 16);
    l[Cell::RING + t] = x / 134217728 % 8;
    l[Cell::FAILURES + t] = f;
}

// Those of threads t and t + 1.
fn put_pair(l: &mut Lock, t: usize, x: u64, f: u64)
    requires { (length l.old ≡ 512) × (t < 7) }
    ensures { l.new ≡ with_pair l.old t x f }
{
    put_thread(l, t, x % 4294967296, f % 65536);
    put_thread(l, t + 1, x / 4294967296, f / 65536 % 65536);
}

// Every number of the lock is set.
pub fn unpack(r: Record, l: &mut Lock)
    ensures { l.new ≡ lock_of r }
{
    *l = [0; 512];
    put_lock(l, r.lock);
    put_pair(l, 0, r.first, r.failures);
    put_pair(l, 2, r.second, r.failures / 4294967296);
    put_pair(l, 4, r.third, r.others);
    put_pair(l, 6, r.fourth, r.others / 4294967296);
}

// ---- a lock in numbers

// The arrivals from nodes of the words 0 to 7.
fn tree_number(l: &Lock) -> u64
    requires { length l.now ≡ 512 }
    ensures { result ≡ tree_number l.now }
{
    l[0] / Packed::TREE % 16
        + 16 * (l[1] / Packed::TREE % 16)
        + 256 * (l[2] / Packed::TREE % 16)
        + 4096 * (l[3] / Packed::TREE % 16)
        + 65536 * (l[4] / Packed::TREE % 16)
        + 1048576 * (l[5] / Packed::TREE % 16)
        + 16777216 * (l[6] / Packed::TREE % 16)
        + 268435456 * (l[7] / Packed::TREE % 16)
}

fn lock_number(l: &Lock) -> u64
    requires { length l.now ≡ 512 }
    ensures { result ≡ lock_number l.now }
{
    let tree = tree_number(l);
    l[0] % 256
        + 256 * (l[Cell::MUTEX] % 256)
        + 65536 * (l[Cell::READERS] % 256)
        + 16777216 * (l[Cell::WRITERS] % 256)
        + 4294967296 * tree
}

fn thread_number(l: &Lock, t: usize) -> u64
    requires { (length l.now ≡ 512) × (t < 8) }
    ensures { result ≡ thread_number l.now t }
{
    let seen = l[Cell::SEEN + t];
    l[Cell::PC + t] % 64
        + 64 * (l[Cell::NODE + t] % 8)
        + 512 * (l[Cell::ROUTE + t] % 8)
        + 4096 * (l[Cell::BELOW + t] % 8)
        + 32768 * (seen % 256)
        + 8388608 * (seen / Packed::TREE % 16)
        + 134217728 * (l[Cell::RING + t] % 8)
}

fn pair_number(l: &Lock, t: usize) -> u64
    requires { (length l.now ≡ 512) × (t < 7) }
    ensures { result ≡ pair_number l.now t }
{
    thread_number(l, t) + 4294967296 * thread_number(l, t + 1)
}

fn failures_number(l: &Lock, t: usize) -> u64
    requires { (length l.now ≡ 512) × (t < 5) }
    ensures { result ≡ failures_number l.now t }
{
    l[Cell::FAILURES + t] % 65536
        + 65536 * (l[Cell::FAILURES + t + 1] % 65536)
        + 4294967296 * (l[Cell::FAILURES + t + 2] % 65536)
        + 281474976710656 * (l[Cell::FAILURES + t + 3] % 65536)
}

fn pack(head: u64, l: &Lock) -> Record
    requires { length l.now ≡ 512 }
    ensures { result ≡ record_of head l.now }
{
    Record {
        head: head,
        failures: failures_number(l, 0),
        others: failures_number(l, 4),
        lock: lock_number(l),
        first: pair_number(l, 0),
        second: pair_number(l, 2),
        third: pair_number(l, 4),
        fourth: pair_number(l, 6),
    }
}

// The record of a lock to which an order of thread t led from record i, so many rows from the fresh one.
pub fn record_of(i: usize, depth: u64, t: usize, order: u8, l: &Lock) -> Record
    requires { (i < 4294967296) × (depth < 65536) × (t < 8) × (length l.now ≡ 512) }
    ensures { result ≡ record_of (head_of i depth t order) l.now }
{
    let head = order as u64 + 256 * t as u64 + 65536 * depth + 4294967296 * i as u64;
    pack(head, l)
}

// Are two locks the same, number by number? `differ` gathers the bits in which any two differ: no jump is in the loop, so
// the compiler takes many numbers at a time.
fn same_lock(a: &Lock, b: &Lock) -> bool
    requires { (length a.now ≡ 512) × (length b.now ≡ 512) }
    ensures { result ≡ true → a.now ≡ b.now }
{
    let mut differ: u64 = 0;
    for j in 0..512 {
        differ |= a[j] ^ b[j];
    }
    differ == 0
}

// Does the record stand for the lock?
pub fn fits(r: Record, l: &Lock) -> bool
    requires { length l.now ≡ 512 }
    ensures { result ≡ true → lock_of r ≡ l.now }
{
    let mut back: Lock = [0; 512];
    unpack(r, &mut back);
    same_lock(&back, l)
}

// ---- the index: nothing is claimed of it

// One number more in a number of 33 bits.
pub fn mix(h: u64, x: u64) -> u64
    ensures { result ≡ mixed h x }
{
    let y = (h % 4294967296 + x % 4294967296 + x / 4294967296 * 40503) % 4294967296 * 2654435761;
    y % 4294967296 + y / 4294967296
}

// A number for a record but for its head and the failures.
pub fn hash(r: Record) -> u64
    ensures { result ≡ hash_of r }
{
    let a = mix(1, r.lock);
    let b = mix(a, r.first);
    let c = mix(b, r.second);
    let d = mix(c, r.third);
    mix(d, r.fourth)
}

// What a state is found by: a record without its head and the failures.
#[derive(Clone, Copy, PartialEq, Eq)]
pub struct Key {
    pub lock: u64,
    pub first: u64,
    pub second: u64,
    pub third: u64,
    pub fourth: u64,
}

impl Record {
    pub fn key(self) -> Key
        ensures { result ≡ key_of self }
    {
        Key {
            lock: self.lock,
            first: self.first,
            second: self.second,
            third: self.third,
            fourth: self.fourth,
        }
    }
}

// Do two records have the same numbers but for the head and the failures?
pub fn same_key(a: Record, b: Record) -> bool
    ensures { result ≡ true → SameKey a b }
{
    a.key() == b.key()
}

// ---- the records found

// There is no room for a record more.
#[derive(Clone, Copy, Debug, PartialEq, Eq)]
pub struct NoRoom;

// The states found so far: `count` records, and the index to find them by.
#[derive(Drop)]
pub struct States<'a> {
    pub records: &'a mut [u64],
    pub index: &'a mut [u64],
    pub count: usize,
}

impl<'a> States<'a> {
    // Record i.
    pub fn record_at(&self, i: usize) -> Record
        requires { 8 * i + 8 ≤ length self.now.records.now }
        ensures { result ≡ record_at self.now.records.now i }
    {
        record_at(self.records, i)
    }

    // The number of a record with the same key. Where it finds none, the index has the next number then, if it has room. A
    // number of the index has a record's number, and beside it its hash: of most other records none is read.
    pub fn find(&mut self, r: Record) -> Option<usize>
        requires { 8 * self.old.count ≤ length self.old.records.now }
        ensures found { IfSome result (λ i. (i < self.old.count) × SameKey (record_at self.old.records.now i) r) }
        ensures same_records { self.new.records ≡ self.old.records }
        ensures same_count { self.new.count ≡ self.old.count }
        ensures same_index { self.new.index.ghost_name ≡ self.old.index.ghost_name }
    {
        let len = self.index.len();
        if len == 0 {
            return None;
        }
        let h = hash(r);
        let low = h % 4294967296;
        let mut slot = (h % len as u64) as usize;
        for _ in 0..len {
            let v = self.index[slot];
            if v < 4294967296 {
                self.index[slot] = (self.count as u64 + 1) % 4294967296 * 4294967296 + low;
                return None;
            }
            let at = (v / 4294967296) as usize - 1;
            if v % 4294967296 == low && at < self.count && same_key(self.record_at(at), r) {
                return Some(at);
            }
            slot += 1;
            if slot == len {
                slot = 0;
            }
        }
        None
    }

    // One record more.
    pub fn push(&mut self, r: Record) -> Result<(), NoRoom>
        requires { 8 * self.old.count ≤ length self.old.records.now }
        ensures adds { Full self.old.records.now self.old.count self.new.records.now self.new.count (is_ok result)
            ⊎ New self.old.records.now self.old.count r self.new.records.now self.new.count (is_ok result) }
        ensures same_references { names_of self.new ≡ names_of self.old }
    {
        if self.records.len() / 8 <= self.count {
            return Err(NoRoom);
        }
        let n = self.count;
        put_record(self.records, n, r);
        self.count = n + 1;
        Ok(())
    }

    // The record is looked up, or added.
    pub fn add(&mut self, r: Record) -> Result<(), NoRoom>
        requires { 8 * self.old.count ≤ length self.old.records.now }
        ensures adds { Adds self.old.records.now self.old.count r self.new.records.now self.new.count (is_ok result) }
        ensures same_references { names_of self.new ≡ names_of self.old }
    {
        if self.find(r).is_some() {
            return Ok(());
        }
        self.push(r)
    }
}
