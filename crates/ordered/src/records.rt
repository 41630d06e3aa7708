// The exchange's records as tables hold them: accounts go by their number and name their balances, offers go by
// their key and name the amount that they sell, grants name their balances. Assumes nothing.
ghost use Rattle.std.specs.Prelude.{◌≡◌, List, [], ◌∷◌, if◌then◌else◌, nat_eq, slice_index};
ghost use Rattle.terms.specs.Order.{words};

use crate::sums::Amounts;
use crate::table::{Keyed, SortKey};
use terms::{Account, Grant, Key, Offer};

// A number is compared as it is.
impl SortKey for u32 {
    ghost rank = { λ n. n ∷ [] };

    fn precedes(self, other: u32) -> bool {
        self < other
    }
}

// A number on its own is a record too, whose key it is.
impl Keyed for u32 {
    type Id = u32;

    ghost key = { λ n. n };

    fn key(&self) -> u32 {
        *self
    }
}

impl Keyed for Account {
    type Id = u32;

    ghost key = { λ a. a.number };

    fn key(&self) -> u32 {
        self.number
    }
}

// The balance of an asset: 0 for an asset above 7.
fn balance(balances: &[u64; 8], asset: u8) -> u64
    ensures { result ≡ slice_index balances.now asset }
{
    balances.get(asset as usize).copied().unwrap_or(0)
}

// An account names its balances.
impl Amounts<u8> for Account {
    ghost amount = { λ a x. slice_index a.balances x };

    fn amount(&self, by: u8) -> u64 {
        balance(&self.balances, by)
    }
}

// A grant names the balances that it gives.
impl Amounts<u8> for Grant {
    ghost amount = { λ g x. slice_index g.balances x };

    fn amount(&self, by: u8) -> u64 {
        balance(&self.balances, by)
    }
}

impl SortKey for Key {
    ghost rank = { words };

    fn precedes(self, key: Key) -> bool {
        self < key
    }
}

impl Keyed for Offer {
    type Id = Key;

    ghost key = { λ o. o.key };

    fn key(&self) -> Key {
        self.key
    }
}

// What an offer sells of an asset: 0 where it sells another.
impl Amounts<u8> for Offer {
    ghost amount = { λ o x. (if nat_eq o.key.sold x then o.amount else 0) };

    fn amount(&self, by: u8) -> u64 {
        if self.key.sold == by { self.amount } else { 0 }
    }
}
