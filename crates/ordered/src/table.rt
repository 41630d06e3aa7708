// The ordered table. Its records stand in the first `len` slots of a lent slice. That their keys rise is no
// invariant of the table but of the type around it: look-ups promise their answers where the keys rise.
// Assumes nothing.
ghost use Rattle.std.specs.Prelude.{◌≡◌, ℕ, ◌+◌, ◌-◌, ◌<◌, ◌≤◌, min, ◌&&◌, List, [], length, take, drop, ◌++◌, if◌then◌else◌, sum_by, MatchResult, nat_le, nat_lt, slice_get, slice_set};
ghost use Rattle.std.specs.List.{insert, remove};
ghost use Rattle.terms.specs.Order.{lower, Rising, above};
ghost use Rattle.ordered.specs.Places.{Cut, Past, Sought, told};

use crate::sums::{Amounts, total};
use std::marker::Model;

// A key, by the numbers that it is compared by, in turn.
pub trait SortKey: Copy {
    ghost rank: { Self → List ℕ };

    fn precedes(self, other: Self) -> bool
        ensures { result ≡ lower (rank self) (rank other) };
}

// A record that names its key.
pub trait Keyed: Copy {
    type Id: SortKey;

    ghost key: { Self → Self.Id };

    fn key(&self) -> Self::Id
        ensures { result ≡ key self.now };
}

// How many records lie below `key`.
fn lower_bound<R: Keyed>(records: &[R], key: R::Id) -> usize
    ensures within { result ≤ length records.now }
    ensures cut { Rising (λ x. R.Id.rank (R.key x)) records.now → Cut (λ x. R.Id.rank (R.key x)) records.now (R.Id.rank key) result }
{
    // The library's `partition_point` takes no branch on what it reads: that is up to 4 times slower where keys are asked
    // for in order, as in a walk (32 ns a step, beside 7 ns), and no faster elsewhere. So the halving is written out.
    let mut low = 0;
    let mut high = records.len();
    while low < high {
        let mid = low + (high - low) / 2;
        if records[mid].key().precedes(key) {
            low = mid + 1;
        } else {
            high = mid;
        }
    }
    low
}

// How many records do not lie above `key`: the place of the lowest one above it.
fn upper_bound<R: Keyed>(records: &[R], key: R::Id) -> usize
    ensures { Rising (λ x. R.Id.rank (R.key x)) records.now → Past (λ x. R.Id.rank (R.key x)) records.now (R.Id.rank key) result }
{
    let i = lower_bound(records, key);
    match records.get(i) {
        Some(x) if !key.precedes(x.key()) => i + 1,
        _ => i,
    }
}

// The place of `key` among records whose keys rise, or in Err where it would go.
pub fn search<R: Keyed>(records: &[R], key: R::Id) -> Result<usize, usize>
    ensures within { MatchResult result (λ i. i < length records.now) (λ i. i ≤ length records.now) }
    ensures found { Rising (λ x. R.Id.rank (R.key x)) records.now → Sought (λ x. R.Id.rank (R.key x)) records.now (R.Id.rank key) result }
{
    let i = lower_bound(records, key);
    match records.get(i) {
        Some(x) if !key.precedes(x.key()) => Ok(i),
        _ => Err(i),
    }
}

// Writes `item` at `at`, and moves those from there on one place up.
fn insert<R: Copy>(slots: &mut [R], len: usize, at: usize, item: R)
    requires { (at ≤ len) × (len < length slots.old) }
    ensures records { take (len + 1) slots.new ≡ insert (take len slots.old) at item }
    ensures free { drop (len + 1) slots.new ≡ drop (len + 1) slots.old }
{
    slots.copy_within(at..len, at + 1);
    slots[at] = item;
}

// Takes the record at `at` out, and moves those after it one place down.
fn remove<R: Copy>(slots: &mut [R], len: usize, at: usize)
    requires { (at < len) × (len ≤ length slots.old) }
    ensures records { take (len - 1) slots.new ≡ remove (take len slots.old) at }
    ensures free { drop (len - 1) slots.new ≡ drop (len - 1) slots.old }
{
    slots.copy_within(at + 1..len, at);
}

// Writes `item` over the one at `at`.
fn replace<R: Copy>(slots: &mut [R], len: usize, at: usize, item: R)
    requires { (at < len) × (len ≤ length slots.old) }
    ensures records { take len slots.new ≡ slice_set (take len slots.old) at item }
    ensures free { drop len slots.new ≡ drop len slots.old }
{
    slots[at] = item;
}

// An ordered table: the records in the first `len` slots, which the caller lends, and as many more as there are slots.
#[derive(Drop)]
pub struct Table<'a, R: Keyed> {
    // memory is lent, and no more is asked for: so a slice with a length beside it, and no Vec
    slots: &'a mut [R],
    len: usize,
}

impl<'a, R: Keyed> Model for Table<'a, R> {
    ghost use Rattle.std.specs.Prelude.{◌≤◌, length, take, drop};
    ghost use Rattle.ordered.specs.Rows.{Rows};

    ghost Value = { Rows R };

    ghost view = { λ t. record { records = take t.len t.slots.now; capacity = length t.slots.now; free = drop t.len t.slots.now } };

    ghost invariant = { λ t. t.len ≤ length t.slots.now };
}

impl<'a, R: Keyed> Table<'a, R> {
    // An empty table, whatever the slots hold; they hold it still.
    pub fn new(slots: &'a mut [R]) -> Self
        ensures { result ≡ record { records = []; capacity = length slots.old; free = slots.old } }
    {
        Table { slots, len: 0 }
    }

    // How many records there are.
    pub fn len(&self) -> usize
        ensures { result ≡ length self.now.records }
    {
        self.records().len()
    }

    // How many there may be: those that there are, and one for each free slot.
    pub fn capacity(&self) -> usize
        ensures value { result ≡ self.now.capacity }
        ensures fits { length self.now.records + length self.now.free ≡ self.now.capacity }
    {
        self.slots.len()
    }

    // Whether there are as many as there may be.
    pub fn is_full(&self) -> bool
        ensures { result ≡ nat_le self.now.capacity (length self.now.records) }
    {
        self.len >= self.slots.len()
    }

    // All records, in the order of their places.
    pub fn records(&self) -> &[R]
        ensures { result.now ≡ self.now.records }
    {
        &self.slots[..self.len]
    }

    // The place of the record with this key, or in Err the place where one would go.
    pub fn search(&self, key: R::Id) -> Result<usize, usize>
        ensures { Rising (λ x. R.Id.rank (R.key x)) self.now.records → Sought (λ x. R.Id.rank (R.key x)) self.now.records (R.Id.rank key) result }
    {
        search(self.records(), key)
    }

    // The lowest key above this one.
    pub fn next(&self, key: R::Id) -> Option<R::Id>
        ensures { Rising (λ x. R.Id.rank (R.key x)) self.now.records → told R.Id.rank result ≡ above (λ x. R.Id.rank (R.key x)) self.now.records (R.Id.rank key) }
    {
        let all = self.records();
        let x = all.get(upper_bound(all, key))?;
        Some(x.key())
    }

    // The record at a place.
    pub fn get(&self, at: usize) -> Option<R>
        ensures { result ≡ slice_get self.now.records at }
    {
        self.records().get(at).copied()
    }

    // Puts a record in at a place, and those from there on move one place up, into the first free slot. False where
    // the place lies past the end or no slot is free; then nothing changes. True and false as of `HashSet::insert`: no
    // value stands beside the flag.
    #[tactic(auto, using(crate::proofs::Shift::put_in))]
    pub fn insert(&mut self, at: usize, item: R) -> bool
        ensures done { result ≡ (nat_le at (length self.old.records) && nat_lt (length self.old.records) self.old.capacity) }
        ensures after { self.new ≡ (if result then record { records = insert self.old.records at item; capacity = self.old.capacity; free = drop 1 self.old.free } else self.old) }
    {
        let n = self.len;
        if at > n || n >= self.slots.len() {
            return false;
        }
        insert(self.slots, n, at, item);
        self.len = n + 1;
        true
    }

    // Takes the record at a place out, and those after it move one place down; the slot of the last is free then, and
    // holds what it held. None where no record stands there; then nothing changes.
    pub fn remove(&mut self, at: usize) -> Option<R>
        ensures taken { result ≡ slice_get self.old.records at }
        ensures after { self.new ≡ record { records = remove self.old.records at; capacity = self.old.capacity; free = drop (length (remove self.old.records at)) self.old.records ++ self.old.free } }
    {
        let taken = self.get(at)?;
        let n = self.len;
        remove(self.slots, n, at);
        self.len = n - 1;
        Some(taken)
    }

    // Writes a record over the one at a place, which it hands back. None where no record stands there; then nothing
    // changes.
    pub fn replace(&mut self, at: usize, item: R) -> Option<R>
        ensures taken { result ≡ slice_get self.old.records at }
        ensures after { self.new ≡ record { records = slice_set self.old.records at item; capacity = self.old.capacity; free = self.old.free } }
    {
        let taken = self.get(at)?;
        let n = self.len;
        replace(self.slots, n, at, item);
        Some(taken)
    }

    // The sum of what the records name, or the largest u64 where the sum is larger.
    pub fn sum<By: Copy>(&self, by: By) -> u64
    where
        R: Amounts<By>,
        ensures { result ≡ min (sum_by (λ x. R.Amounts.amount x by) self.now.records) 18446744073709551615 }
    {
        total(self.records(), by)
    }
}
