// The offer book that keeps its offers in a binary trie over the bits of the key. Each branch carries the sum of the
// amounts below it, so that every question and every change looks at one path or two. Assumes nothing.
#![tactic(auto)]

ghost use Rattle.std.specs.Prelude.{◌≡◌, ℕ, ◌+◌, ◌-◌, ◌/◌, ◌^◌, ◌<◌, ◌≤◌, min, true, List, [], IfOk};
ghost use Rattle.terms.specs.Holdings.{sound_book};
ghost use Rattle.trie.specs.Trie.{held, under, offers, Next};
ghost use Rattle.trie_book.specs.Codes.{book_of};

use codes::{code, key_of, start};
use offers::{OfferBook, in_range};
use std::alloc::{AllocError, Global};
use terms::{Cause, Fault, Key};
use trie::Trie;

mod codes;

// The numbers of the keys of one sold asset.
const PER_SOLD: u128 = 1 << 99;

#[derive(Drop)]
pub struct TrieBook {
    trie: Trie,
    ghost sound: { sound_book (book_of trie.capacity trie.root) ≡ true },
}

impl TrieBook {
    // An empty book of n nodes, which hold (n + 1) / 2 offers; nodes beyond 131,071 lie idle. Fails where memory is
    // wanting; nothing else ever wants any.
    pub fn new(heap: Global, nodes: usize) -> Result<TrieBook, AllocError>
        ensures { IfOk result (λ t. book_of t.trie.capacity t.trie.root ≡ record { capacity = min ((nodes + 1) / 2) 65536; offers = [] }) }
    {
        Ok(TrieBook {
            trie: Trie::new(heap, nodes)?,
        })
    }
}

impl OfferBook for TrieBook {
    ghost book = { λ s. book_of s.trie.capacity s.trie.root };

    ghost sound = { λ s. s.sound };

    fn amount(&self, key: Key) -> u64 {
        if key.sold > 7 || key.bought > 7 {
            return 0;
        }
        self.trie.amount(code(key))
    }

    fn count(&self) -> u32 {
        self.trie.count()
    }

    fn capacity(&self) -> u32 {
        self.trie.capacity()
    }

    fn offered(&self, sold: u8) -> u64 {
        if sold > 7 {
            return 0;
        }
        let low = code(Key {
            sold,
            bought: 0,
            limit: 0,
            account: 0,
            sequence: 0,
        });
        self.trie.below(low + PER_SOLD) - self.trie.below(low)
    }

    fn next(&self, key: Key) -> Option<Key> {
        let from = start(key)?;
        let found = self.trie.next(from)?;
        Some(key_of(found))
    }

    fn up_to(&self, sold: u8, bought: u8, limit: u32) -> u64 {
        if sold > 7 || bought > 7 {
            return 0;
        }
        let low = code(Key {
            sold,
            bought,
            limit: 0,
            account: 0,
            sequence: 0,
        });
        let high = code(Key {
            sold,
            bought,
            limit,
            account: u32::MAX,
            sequence: u32::MAX,
        });
        self.trie.below(high + 1) - self.trie.below(low)
    }

    fn place(&mut self, key: Key, units: u64) -> Result<(), Fault> {
        if self.amount(key) > 0 {
            return Err(Cause::StandsAlready.into());
        }
        if self.count() >= self.capacity() {
            return Err(Cause::NoRoom.into());
        }
        if !in_range(key, units) {
            return Err(Cause::BadOperand.into());
        }
        self.trie.place(code(key), units);
        Ok(())
    }

    fn reduce(&mut self, key: Key, units: u64) -> Result<(), Fault> {
        let old = self.amount(key);
        if old == 0 {
            return Err(Cause::Absent.into());
        }
        if units > old {
            return Err(Cause::BadOperand.into());
        }
        self.trie.reduce(code(key), units);
        Ok(())
    }
}
