// The account store that keeps its accounts sorted by number, in an ordered table over lent slots. Look-ups and next
// take a number of comparisons in the order of the logarithm of the count; open moves one block of accounts.
// Assumes nothing.
#![tactic(auto)]

ghost use Rattle.std.specs.Prelude.{◌≡◌, ℕ, min, true, [], length};
ghost use Rattle.terms.specs.Holdings.{sound_store};
ghost use Rattle.sorted_store.specs.Rows.{store_of, Found};

use accounts::{AccountStore, MAX_ACCOUNTS, new_account};
use ordered::{Amounts, Table};
use terms::{Account, Cause, Fault, MAX_BALANCE};

#[derive(Drop)]
pub struct SortedStore<'a> {
    table: Table<'a, Account>,
    top: u32,
    // the accounts are in order and in range
    ghost sound: { sound_store (store_of table top) ≡ true },
}

impl<'a> SortedStore<'a> {
    // An empty store, whatever the slots hold. Its capacity is their number, or 65,536 where there are more; slots
    // beyond lie idle.
    pub fn new(slots: &'a mut [Account], top: u32) -> Self
        ensures { store_of result.table result.top ≡ record { capacity = min (length slots.old) 65536; top = top; accounts = [] } }
    {
        let n = slots.len().min(MAX_ACCOUNTS);
        SortedStore {
            table: Table::new(&mut slots[..n]),
            top,
        }
    }

    // The account with this number, and its place.
    fn find(&self, number: u32) -> Option<(usize, Account)>
        ensures { Found self.now.table.records number result }
    {
        let i = self.table.search(number).ok()?;
        let account = self.table.get(i)?;
        Some((i, account))
    }
}

impl<'a> AccountStore for SortedStore<'a> {
    ghost store = { λ s. store_of s.table s.top };

    ghost sound = { λ s. s.sound };

    fn stands(&self, number: u32) -> bool {
        self.find(number).is_some()
    }

    fn balance(&self, number: u32, asset: u8) -> u64 {
        self.find(number).map_or(0, |(_, a)| a.amount(asset))
    }

    fn floor(&self, number: u32) -> u32 {
        self.find(number).map_or(0, |(_, a)| a.floor)
    }

    fn count(&self) -> u32 {
        self.table.len() as u32
    }

    fn capacity(&self) -> u32 {
        self.table.capacity() as u32
    }

    fn top(&self) -> u32 {
        self.top
    }

    fn total(&self, asset: u8) -> u64 {
        self.table.sum(asset)
    }

    fn next(&self, number: u32) -> Option<u32> {
        self.table.next(number)
    }

    fn open(&mut self, number: u32) -> Result<(), Fault> {
        if number == 0 || number > self.top {
            return Err(Cause::NoSuchAccount.into());
        }
        let Err(i) = self.table.search(number) else {
            return Err(Cause::StandsAlready.into());
        };
        if self.table.len() >= self.table.capacity() {
            return Err(Cause::NoRoom.into());
        }
        self.table.insert(i, new_account(number));
        Ok(())
    }

    fn set_balance(&mut self, number: u32, asset: u8, value: u64) -> Result<(), Fault> {
        let (i, mut account) = self.find(number).ok_or(Cause::Absent)?;
        if asset >= 8 || value > MAX_BALANCE {
            return Err(Cause::BadOperand.into());
        }
        account.balances[asset as usize] = value;
        self.table.replace(i, account);
        Ok(())
    }

    fn set_floor(&mut self, number: u32, value: u32) -> Result<(), Fault> {
        let (i, mut account) = self.find(number).ok_or(Cause::Absent)?;
        account.floor = value;
        self.table.replace(i, account);
        Ok(())
    }
}
