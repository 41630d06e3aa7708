// The lent memory of a hashed store: slots for accounts, buckets that a hash of the number leads to, and the order
// of the numbers. What it means, and that its parts agree, is said by the store around it. Assumes nothing.
ghost use Rattle.std.specs.Prelude.{◌≡◌, ℕ, ◌+◌, ◌-◌, ◌*◌, ◌/◌, ◌<◌, ◌≤◌, ◌&&◌, length, drop, if◌then◌else◌, nat_le, nat_lt, slice_index_or, slice_set};
ghost use Rattle.std.specs.List.{insert};
ghost use Rattle.hashed_store.specs.Probing.{start, Probed};

use crate::entry::Entry;
use crate::probe::Probe;
use ordered::{Keyed, Table};
use terms::Account;

// An entry's key is its number.
impl Keyed for Entry {
    type Id = u32;

    ghost key = { λ e. e.number };

    fn key(&self) -> u32 {
        self.number
    }
}

// The bucket where a probe for a number starts: the high bits of a product, so that runs of numbers spread.
fn hash(number: u32, size: usize) -> usize
    requires { 0 < size }
    ensures value { result ≡ start number size }
    ensures within { result < size }
{
    let mixed = number.wrapping_mul(2_654_435_769);
    (mixed as u128 * size as u128 / 4_294_967_296) as usize
}

// The bucket that holds the number, or the first free one, from the bucket h on.
// Two loops, for speed: with `split_at(h)` and a `position` in each part, which was proved too, a look-up among 256
// scattered accounts took 15.7 ns beside 14.1, and a step of a walk 15.4 beside 7.6.
fn probe_from(buckets: &[Entry], number: u32, h: usize) -> Probe
    requires { (h ≤ length buckets.now) × (0 < number) }
    ensures { Probed number h buckets.now result }
{
    for j in h..buckets.len() {
        let a = buckets[j].number;
        if a == number {
            return Probe::Held(j);
        }
        if a == 0 {
            return Probe::Free(j);
        }
    }
    for k in 0..h {
        let a = buckets[k].number;
        if a == number {
            return Probe::Held(k);
        }
        if a == 0 {
            return Probe::Free(k);
        }
    }
    Probe::Full
}

#[derive(Drop)]
pub(crate) struct Tables<'a> {
    // the first of them hold the accounts, in the order of their opening
    pub(crate) slots: &'a mut [Account],
    pub(crate) buckets: &'a mut [Entry],
    pub(crate) order: Table<'a, Entry>,
}

impl<'a> Tables<'a> {
    // The bucket that holds the number, or the first free one, from where its hash points.
    pub(crate) fn probe(&self, number: u32) -> Probe
        requires { 0 < number }
        ensures { Probed number (start number (length self.now.buckets.now)) self.now.buckets.now result }
    {
        let size = self.buckets.len();
        if size == 0 {
            return Probe::Full;
        }
        probe_from(self.buckets, number, hash(number, size))
    }

    pub(crate) fn entry(&self, j: usize) -> Entry
        requires { j < length self.now.buckets.now }
        ensures { result ≡ slice_index_or self.now.buckets.now j result }
    {
        let b: &[Entry] = &*self.buckets;
        b[j]
    }

    pub(crate) fn account(&self, s: usize) -> Account
        requires { s < length self.now.slots.now }
        ensures { result ≡ slice_index_or self.now.slots.now s result }
    {
        let a: &[Account] = &*self.slots;
        a[s]
    }

    // Writes an account into a slot.
    pub(crate) fn write(&mut self, s: usize, account: Account)
        requires { s < length self.old.slots.now }
        ensures slots { self.new.slots.now ≡ slice_set self.old.slots.now s account }
        ensures buckets { self.new.buckets.now ≡ self.old.buckets.now }
        ensures order { self.new.order ≡ self.old.order }
    {
        self.slots[s] = account;
    }

    // Writes a new account into a slot, and its entry into a bucket and at a place of the order.
    pub(crate) fn enter(&mut self, s: usize, account: Account, j: usize, at: usize, entry: Entry)
        requires { (s < length self.old.slots.now) × (j < length self.old.buckets.now) }
        ensures slots { self.new.slots.now ≡ slice_set self.old.slots.now s account }
        ensures buckets { self.new.buckets.now ≡ slice_set self.old.buckets.now j entry }
        ensures order { self.new.order ≡ (if nat_le at (length self.old.order.records) && nat_lt (length self.old.order.records) self.old.order.capacity then record { records = insert self.old.order.records at entry; capacity = self.old.order.capacity; free = drop 1 self.old.order.free } else self.old.order) }
    {
        self.slots[s] = account;
        self.buckets[j] = entry;
        self.order.insert(at, entry);
    }
}
