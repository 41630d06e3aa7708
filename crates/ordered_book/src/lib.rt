// The offer book that keeps its offers sorted by key, in an ordered table over lent slots, one slot an offer.
// Look-ups and next take a number of comparisons in the order of the logarithm of the count; place and reduce move
// one block of offers, and the sums look at each offer once. Assumes nothing.
#![tactic(auto)]

ghost use Rattle.std.specs.Prelude.{◌≡◌, ℕ, min, true, ◌&&◌, [], length, if◌then◌else◌, ◌==◌, nat_eq, nat_le};
ghost use Rattle.terms.specs.Holdings.{sound_book};
ghost use Rattle.ordered_book.specs.Rows.{book_of, Found};

use offers::{OfferBook, in_range};
use ordered::{Amounts, Table};
use terms::{Cause, Fault, Key, Offer};

// As many offers as a book may have.
const MOST: usize = 65_536;

// A pair, up to a limit.
#[derive(Clone, Copy)]
pub struct Reach {
    pub sold: u8,
    pub bought: u8,
    pub limit: u32,
}

// What an offer sells of a pair at limits up to one: 0 where it is of another pair or its limit is higher.
impl Amounts<Reach> for Offer {
    ghost amount = { λ o p. (if nat_eq o.key.sold p.sold && (o.key.bought == p.bought && nat_le o.key.limit p.limit) then o.amount else 0) };

    fn amount(&self, by: Reach) -> u64 {
        if self.key.sold == by.sold && self.key.bought == by.bought && self.key.limit <= by.limit {
            self.amount
        } else {
            0
        }
    }
}

#[derive(Drop)]
pub struct OrderedBook<'a> {
    table: Table<'a, Offer>,
    // the offers are in order and in range
    ghost sound: { sound_book (book_of table) ≡ true },
}

impl<'a> OrderedBook<'a> {
    // An empty book, whatever the slots hold. Its capacity is their number, or 65,536 where there are more; slots
    // beyond lie idle.
    pub fn new(slots: &'a mut [Offer]) -> Self
        ensures { book_of result.table ≡ record { capacity = min (length slots.old) 65536; offers = [] } }
    {
        let n = slots.len().min(MOST);
        OrderedBook {
            table: Table::new(&mut slots[..n]),
        }
    }

    // The offer with this key, and its place.
    fn find(&self, key: Key) -> Option<(usize, Offer)>
        ensures { Found self.now.table.records key result }
    {
        let i = self.table.search(key).ok()?;
        let offer = self.table.get(i)?;
        Some((i, offer))
    }
}

impl<'a> OfferBook for OrderedBook<'a> {
    ghost book = { λ s. book_of s.table };

    ghost sound = { λ s. s.sound };

    fn amount(&self, key: Key) -> u64 {
        self.find(key).map_or(0, |(_, o)| o.amount)
    }

    fn count(&self) -> u32 {
        self.table.len() as u32
    }

    fn capacity(&self) -> u32 {
        self.table.capacity() as u32
    }

    fn offered(&self, sold: u8) -> u64 {
        self.table.sum(sold)
    }

    fn next(&self, key: Key) -> Option<Key> {
        self.table.next(key)
    }

    fn up_to(&self, sold: u8, bought: u8, limit: u32) -> u64 {
        let reach = Reach {
            sold,
            bought,
            limit,
        };
        self.table.sum(reach)
    }

    fn place(&mut self, key: Key, units: u64) -> Result<(), Fault> {
        let Err(i) = self.table.search(key) else {
            return Err(Cause::StandsAlready.into());
        };
        if self.table.is_full() {
            return Err(Cause::NoRoom.into());
        }
        if !in_range(key, units) {
            return Err(Cause::BadOperand.into());
        }
        self.table.insert(i, Offer { key, amount: units });
        Ok(())
    }

    fn reduce(&mut self, key: Key, units: u64) -> Result<(), Fault> {
        let (i, offer) = self.find(key).ok_or(Cause::Absent)?;
        if units > offer.amount {
            return Err(Cause::BadOperand.into());
        }
        if units == 0 {
            self.table.remove(i);
        } else {
            self.table.replace(i, Offer { key, amount: units });
        }
        Ok(())
    }
}
