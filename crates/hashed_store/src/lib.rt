// The account store that finds its accounts by a hash of their number. The accounts lie in the lent slots in the order
// of their opening and never move. The lent index holds three entries for each: one in the ordered table that next
// walks, and two buckets, so that at most half of the buckets are ever taken and a look-up takes a few probes, however
// full the store is. Assumes nothing.
#![tactic(auto)]

ghost use Rattle.std.specs.Prelude.{◌≡◌, ℕ, ◌+◌, ◌-◌, ◌*◌, ◌/◌, ◌<◌, ◌≤◌, min, true, [], map, length, take, sum_by};
ghost use Rattle.terms.specs.declared.Account.{Account};
ghost use Rattle.terms.specs.Ranges.{every};
ghost use Rattle.terms.specs.Holdings.{sound_store};
ghost use Rattle.hashed_store.specs.declared.entry.Entry.{Entry};
ghost use Rattle.hashed_store.specs.Index.{number, lying, store_of, laid, taken, Found};
ghost use Rattle.hashed_store.specs.Probing.{start, turned, seen, has, Probed};

use accounts::{AccountStore, MAX_ACCOUNTS, new_account};
use ordered::{Amounts, Table, total};
use terms::{Account, Cause, Fault, MAX_BALANCE};

mod entry;
mod probe;
mod tables;

pub use entry::Entry;
use probe::Probe;
use tables::Tables;

#[derive(Drop)]
pub struct HashedStore<'a> {
    tables: Tables<'a>,
    top: u32,
    // the order has a place for each slot
    ghost even: { tables.order.capacity ≡ length tables.slots.now },
    // there are at least as many buckets as slots
    ghost roomy: { length tables.slots.now ≤ length tables.buckets.now },
    // each entry of the order points to one of the first slots, and to an account of its number
    ghost laid: { every (laid (length tables.order.records) tables.slots.now) tables.order.records ≡ true },
    // the taken buckets hold the entries of the order: whatever is summed over them, the sums are equal
    ghost linked: { (f : Entry → ℕ) → sum_by (taken f) tables.buckets.now ≡ sum_by f tables.order.records },
    // a probe for a number meets it wherever it stands
    ghost finds: { (n : ℕ) → 0 < n → seen n (turned (start n (length tables.buckets.now)) (map number tables.buckets.now)) ≡ has n (map number tables.buckets.now) },
    // the first slots hold the accounts that the entries point to, and no others
    ghost sums: { (f : Account → ℕ) → sum_by f (take (length tables.order.records) tables.slots.now) ≡ sum_by f (map (lying tables.slots.now) tables.order.records) },
    // these accounts are in order and in range
    ghost sound: { sound_store (store_of top tables.slots.now tables.order.records) ≡ true },
}

impl<'a> HashedStore<'a> {
    // An empty store, whatever slots and index hold. Its capacity is the number of slots, or a third of the entries of
    // the index where that is less, or 65,536 where both are more; what lies beyond stays idle.
    pub fn new(slots: &'a mut [Account], index: &'a mut [Entry], top: u32) -> Self
        ensures { store_of result.top result.tables.slots.now result.tables.order.records ≡ record { capacity = min (min (length slots.old) (length index.old / 3)) 65536; top = top; accounts = [] } }
    {
        let n = slots.len().min(index.len() / 3).min(MAX_ACCOUNTS);
        let (order, rest) = index.split_at_mut(n);
        let buckets = &mut rest[..2 * n];
        buckets.fill(Entry::default());
        HashedStore {
            tables: Tables {
                slots: &mut slots[..n],
                buckets,
                order: Table::new(order),
            },
            top,
        }
    }

    // The account with this number, and its slot.
    fn find(&self, number: u32) -> Option<(usize, Account)>
        ensures { Found self.now.tables.slots.now self.now.tables.order.records number result }
    {
        if number == 0 {
            return None;
        }
        let Probe::Held(j) = self.tables.probe(number) else {
            return None;
        };
        let s = self.tables.entry(j).slot as usize;
        Some((s, self.tables.account(s)))
    }
}

impl<'a> AccountStore for HashedStore<'a> {
    ghost store = { λ s. store_of s.top s.tables.slots.now s.tables.order.records };

    ghost sound = { λ s. s.sound };

    fn stands(&self, number: u32) -> bool {
        self.find(number).is_some()
    }

    fn balance(&self, number: u32, asset: u8) -> u64 {
        self.find(number).map_or(0, |(_, a)| a.amount(asset))
    }

    fn floor(&self, number: u32) -> u32 {
        self.find(number).map_or(0, |(_, a)| a.floor)
    }

    fn count(&self) -> u32 {
        self.tables.order.len() as u32
    }

    fn capacity(&self) -> u32 {
        self.tables.slots.len() as u32
    }

    fn top(&self) -> u32 {
        self.top
    }

    fn total(&self, asset: u8) -> u64 {
        let n = self.tables.order.len();
        total(&self.tables.slots[..n], asset)
    }

    fn next(&self, number: u32) -> Option<u32> {
        self.tables.order.next(number)
    }

    fn open(&mut self, number: u32) -> Result<(), Fault> {
        if number == 0 || number > self.top {
            return Err(Cause::NoSuchAccount.into());
        }
        let j = match self.tables.probe(number) {
            Probe::Held(_) => return Err(Cause::StandsAlready.into()),
            Probe::Full => return Err(Cause::NoRoom.into()),
            Probe::Free(j) => j,
        };
        let n = self.tables.order.len();
        if n >= self.tables.slots.len() {
            return Err(Cause::NoRoom.into());
        }
        let Err(i) = self.tables.order.search(number) else {
            unreachable()
        };
        let entry = Entry {
            number,
            slot: n as u32,
        };
        self.tables.enter(n, new_account(number), j, i, entry);
        Ok(())
    }

    fn set_balance(&mut self, number: u32, asset: u8, value: u64) -> Result<(), Fault> {
        let (s, mut account) = self.find(number).ok_or(Cause::Absent)?;
        if asset >= 8 || value > MAX_BALANCE {
            return Err(Cause::BadOperand.into());
        }
        account.balances[asset as usize] = value;
        self.tables.write(s, account);
        Ok(())
    }

    fn set_floor(&mut self, number: u32, value: u32) -> Result<(), Fault> {
        let (s, mut account) = self.find(number).ok_or(Cause::Absent)?;
        account.floor = value;
        self.tables.write(s, account);
        Ok(())
    }
}
