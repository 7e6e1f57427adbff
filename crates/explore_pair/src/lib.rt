// Complete exploration of two locks over one set of threads, for small sizes: every state that rows lead to from two
// fresh locks, by the search of `explore_subject`. With `ordered` the rows are those in lock order: none asks for the
// first lock while its thread holds the second, or is in a call of it.
//
// A state is two records with one number, each in a store of its own, of which the first has the head: so the schedule
// of a state is that of its number in the first store (`explore_path`).
#![tactic(auto)]

ghost use Rattle.std.specs.Prelude.{◌≡◌, ◌⊎◌, ◌&&◌, true, List, ℕ, ◌+◌, ◌*◌, ◌<◌, ◌≤◌, length, replicate, IfSome, is_ok};
ghost use Rattle.lock.specs.declared.Sizes.{Sizes};
ghost use Rattle.cells.specs.View.{Shaped};
ghost use Rattle.pair.specs.Pair.{Side, first, Pair, Note};
ghost use Rattle.progress.specs.LockOrder.{asks_for};
ghost use Rattle.turn.specs.Turn.{cells_of, pair_in};
ghost use Rattle.explore_machine.specs.Locks.{out_of_order};
ghost use Rattle.explore_store.specs.Store.{record_at, SameKey};
ghost use Rattle.explore_subject.specs.Search.{Small};
ghost use Rattle.explore_pair.specs.Both.{locks_of, locks_at, RoomBoth, both, order_in, orders_of, Tidied};
ghost use Rattle.explore_pair.specs.Both.{records_at, seen_of, names_of, FullBoth, NewBoth, AddsBoth};

use cells::{Cell, Pc};
use explore_canonical::normal;
use explore_store::{
    NoRoom, Record, fits, hash, mix, put_record, record_at, record_of, same_key, unpack,
};
use explore_subject::{Subject, order_at};
use lock::Sizes;
use turn::{Locks, fresh_locks, row};

// ---- two records

// The record of the first lock, which has the head, and that of the second.
#[derive(Clone, Copy)]
pub struct Records {
    pub one: Record,
    pub two: Record,
}

// Do two pairs of records have the same keys?
fn same_keys(a: Records, b: Records) -> bool
    ensures { result ≡ true → SameKey a.one b.one × SameKey a.two b.two }
{
    same_key(a.one, b.one) && same_key(a.two, b.two)
}

// The states found so far: `count` records in each of two stores, and the index to find them by.
#[derive(Drop)]
pub struct PairStates<'a> {
    pub first: &'a mut [u64],
    pub second: &'a mut [u64],
    pub index: &'a mut [u64],
    pub count: usize,
}

impl<'a> PairStates<'a> {
    // The records with number i.
    pub fn records_at(&self, i: usize) -> Records
        requires { RoomBoth (seen_of self.now) (i + 1) }
        ensures { result ≡ records_at (seen_of self.now) i }
    {
        Records {
            one: record_at(self.first, i),
            two: record_at(self.second, i),
        }
    }

    // The locks that they stand for, in place.
    pub fn locks_at(&self, i: usize, ls: &mut Locks)
        requires { (RoomBoth (seen_of self.now) (i + 1)) × (length ls.old ≡ 2) }
        ensures { ls.new ≡ locks_at (seen_of self.now) i }
    {
        unpack_both(self.records_at(i), ls);
    }

    // A number whose records have the same keys. Where it finds none, the index has the next number then, if it has room.
    pub fn find(&mut self, r: Records) -> Option<usize>
        requires { RoomBoth (seen_of self.old) self.old.count }
        ensures found { IfSome result (λ i. (i < self.old.count) × SameKey (record_at self.old.first.now i) r.one
            × SameKey (record_at self.old.second.now i) r.two) }
        ensures same_first { self.new.first ≡ self.old.first }
        ensures same_second { self.new.second ≡ self.old.second }
        ensures same_count { self.new.count ≡ self.old.count }
        ensures same_index { self.new.index.ghost_name ≡ self.old.index.ghost_name }
    {
        let len = self.index.len();
        if len == 0 {
            return None;
        }
        let mut slot = (mix(hash(r.one), hash(r.two)) % len as u64) as usize;
        for _ in 0..len {
            let v = self.index[slot] as usize;
            if v == 0 {
                self.index[slot] = self.count as u64 + 1;
                return None;
            }
            let at = v - 1;
            if at < self.count && same_keys(self.records_at(at), r) {
                return Some(at);
            }
            slot += 1;
            if slot == len {
                slot = 0;
            }
        }
        None
    }

    // One number more.
    pub fn push(&mut self, r: Records) -> Result<(), NoRoom>
        requires { RoomBoth (seen_of self.old) self.old.count }
        ensures adds { FullBoth (seen_of self.old) self.old.count (seen_of self.new) self.new.count (is_ok result)
            ⊎ NewBoth (seen_of self.old) self.old.count r (seen_of self.new) self.new.count (is_ok result) }
        ensures same_references { names_of self.new ≡ names_of self.old }
    {
        let n = self.count;
        if self.first.len() / 8 <= n || self.second.len() / 8 <= n {
            return Err(NoRoom);
        }
        put_record(self.first, n, r.one);
        put_record(self.second, n, r.two);
        self.count = n + 1;
        Ok(())
    }

    // The records are looked up, or added.
    pub fn add(&mut self, r: Records) -> Result<(), NoRoom>
        requires { RoomBoth (seen_of self.old) self.old.count }
        ensures adds { AddsBoth (seen_of self.old) self.old.count r (seen_of self.new) self.new.count (is_ok result) }
        ensures same_references { names_of self.new ≡ names_of self.old }
    {
        if self.find(r).is_some() {
            return Ok(());
        }
        self.push(r)
    }
}

// ---- two locks in place

// Numbers that stand for the same states are the same ones.
fn tidy(ls: &mut Locks, threads: usize)
    requires { (length ls.old ≡ 2) × ((x : Side) → Shaped (cells_of x ls.old)) × (threads ≤ 64) }
    ensures { Tidied ls.old ls.new }
{
    normal(&mut ls[0], threads);
    normal(&mut ls[1], threads);
}

pub fn unpack_both(r: Records, ls: &mut Locks)
    requires { length ls.old ≡ 2 }
    ensures { ls.new ≡ locks_of r.one r.two }
{
    unpack(r.one, &mut ls[0]);
    unpack(r.two, &mut ls[1]);
}

// Do the records stand for the locks?
fn fit_both(r: Records, ls: &Locks) -> bool
    requires { (length ls.now ≡ 2) × ((x : Side) → length (cells_of x ls.now) ≡ 512) }
    ensures { result ≡ true → locks_of r.one r.two ≡ ls.now }
{
    fits(r.one, &ls[0]) && fits(r.two, &ls[1])
}

// ---- lock order

// Does the order ask for the first lock?
fn asks_first(z: Sizes, order: u8) -> bool
    requires { Small z }
    ensures { (s : Pair) (t : ℕ) → asks_for z first s (record { thread = t; order = order }) ≡ result }
{
    if order == 1 {
        return true;
    }
    if order < 64 {
        return false;
    }
    ((order - 64) as usize) < z.nodes
}

// Is the row out of lock order?
fn is_out_of_order(z: Sizes, ls: &Locks, t: usize, order: u8) -> bool
    requires { (Small z) × (t < 64) × (length ls.now ≡ 2) × ((x : Side) → length (cells_of x ls.now) ≡ 512) }
    ensures { result ≡ out_of_order z (pair_in ls.now) (record { thread = t; order = order }) }
{
    if !asks_first(z, order) {
        return false;
    }
    ls[1][Cell::PC + t] != Pc::IDLE
}

// ---- two locks explored

// Order k of those that are tried.
pub fn order_in(z: Sizes, k: usize) -> u8
    requires { (Small z) × (k < orders_of z) }
    ensures { result ≡ order_in z k }
{
    if k < 5 + z.nodes {
        order_at(k)
    } else {
        128 + order_at(k - (4 + z.nodes))
    }
}

// Two locks of these sizes, with any rows or with those in lock order.
#[derive(Clone, Copy)]
pub struct TwoLocks {
    pub sizes: Sizes,
    pub ordered: bool,
}

// Is the row left out?
fn is_barred(z: TwoLocks, ls: &Locks, t: usize, order: u8) -> bool
    requires { (Small z.sizes) × (t < 64) × (length ls.now ≡ 2) × ((x : Side) → length (cells_of x ls.now) ≡ 512) }
    ensures { result ≡ (z.ordered && out_of_order z.sizes (pair_in ls.now) (record { thread = t; order = order })) }
{
    z.ordered && is_out_of_order(z.sizes, ls, t, order)
}

impl<'a> Subject for PairStates<'a> {
    type Setting = TwoLocks;

    type Place = Locks;

    ghost State = { Pair };

    ghost Note = { Note };

    ghost Seen = { List ℕ × List ℕ };

    ghost Names = { ℕ × ℕ × ℕ };

    ghost subject = { λ z. both z.ordered z.sizes };

    ghost seen = { seen_of };

    ghost count = { λ s. s.count };

    ghost names = { names_of };

    ghost sizes = { λ z. z.sizes };

    ghost orders = { λ z. orders_of z.sizes };

    ghost order_at = { λ z. order_in z.sizes };

    ghost blank = { replicate 2 (replicate 512 0) };

    fn threads(z: TwoLocks) -> usize
        ensures { result ≡ z.sizes.threads }
    {
        z.sizes.threads
    }

    fn orders(z: TwoLocks) -> usize
        requires { Small z.sizes }
        ensures { result ≡ orders_of z.sizes }
    {
        9 + 2 * z.sizes.nodes
    }

    fn order_at(z: TwoLocks, k: usize) -> u8
        requires { (Small z.sizes) × (k < orders_of z.sizes) }
        ensures { result ≡ order_in z.sizes k }
    {
        order_in(z.sizes, k)
    }

    fn count(&self) -> usize {
        self.count
    }

    fn head(&self, _z: TwoLocks, i: usize) -> u64 {
        self.first[8 * i]
    }

    fn blank() -> Locks
        ensures { result ≡ replicate 2 (replicate 512 0) }
    {
        [[0; 512]; 2]
    }

    fn unpack(&self, _z: TwoLocks, i: usize, ls: &mut Locks) {
        self.locks_at(i, ls);
    }

    fn start(&mut self, z: TwoLocks) -> Result<(), NoRoom> {
        if self.first.len() < 8 || self.second.len() < 8 {
            return Err(NoRoom);
        }
        let ls = fresh_locks();
        let r = Records {
            one: record_of(0, 0, 0, 0, &ls[0]),
            two: record_of(0, 0, 0, 0, &ls[1]),
        };
        self.index.fill(0);
        self.count = 0;
        self.add(r)?;
        if fit_both(r, &ls) {
            Ok(())
        } else {
            Err(NoRoom)
        }
    }

    fn consider(
        &mut self,
        z: TwoLocks,
        ls: &mut Locks,
        i: usize,
        t: usize,
        order: u8,
    ) -> Result<(), NoRoom> {
        if is_barred(z, ls, t, order) {
            return Ok(());
        }
        if row(z.sizes, ls, t, order).is_err() {
            return Ok(());
        }
        tidy(ls, z.sizes.threads);
        let old = self.records_at(i);
        let r = Records {
            one: record_of(i, old.one.head / 65536 % 65536 + 1, t, order, &ls[0]),
            two: record_of(0, 0, 0, 0, &ls[1]),
        };
        let fit = fit_both(r, ls);
        unpack_both(old, ls);
        if !fit {
            return Err(NoRoom);
        }
        self.add(r)
    }
}
