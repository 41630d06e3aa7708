// What laboratories send: blocks, whose transactions may stand in any order, and foundings, whose grants may. Assumes nothing.
ghost use Rattle.std.specs.Prelude.{◌≡◌, ℕ, ◌⊎◌, List, Decides, MatchResult};
ghost use Rattle.std.specs.List.Sorted.{IsPermutation};
ghost use Rattle.terms.specs.declared.Fault.{Fault};
ghost use Rattle.blocks.specs.Readable.{Readable, Founds, Refused, is_begin, is_grant};
ghost use Rattle.blocks.specs.Decoded.{block_of, grants_of};
ghost use Rattle.exchange.specs.Life.{Rearranged, SameBlock, SameFounding};
ghost use Rattle.pairing.specs.Headings.{SameHeading};
ghost use Rattle.pairing.specs.Alike.{blocks_same, blocks_alike, blocks_unread, foundings_same, foundings_alike, foundings_unread};

use crate::order::same_in_any_order;
use arrayvec::ArrayVec;
use blocks::{DecodedBlock, DecodedFounding, read_block, read_founding};
use terms::{Fault, Grant, Transaction};

// A message that is read from bytes, and has entries that may stand in another order.
pub(crate) trait Message: Drop {
    // what the bytes of a message say, and why other bytes are refused
    ghost says: { List ℕ → Self → Type 0 };

    ghost refuses: { List ℕ → Fault → Type 0 };

    // two messages that differ in the order of their entries alone, and bytes that are the same or say such two
    ghost reorders: { Self → Self → Type 0 };

    ghost alike: { List ℕ → List ℕ → Type 0 };

    fn read(bytes: &[u8]) -> Result<Self, Fault>
        ensures { MatchResult result (says bytes.now) (refuses bytes.now) };

    // Whether the other is this one with its entries in another order.
    fn reordered(&self, other: &Self) -> bool
        ensures { Decides result (reorders self.now other.now) };

    // bytes are like themselves
    ghost same: { (bs : List ℕ) → alike bs bs };

    // where both are read, what they say decides
    ghost both_read: { (bs cs : List ℕ) (x y : Self) → says bs x → says cs y
        → (reorders x y → alike bs cs) × (alike bs cs → (bs ≡ cs) ⊎ reorders x y) };

    // refused bytes are like themselves alone
    ghost unread: { (bs cs : List ℕ) (f : Fault) → refuses bs f ⊎ refuses cs f → alike bs cs → bs ≡ cs };
}

impl Message for DecodedBlock {
    ghost says = { λ bs x. Readable bs (block_of x) };

    ghost refuses = { Refused is_begin };

    ghost reorders = { λ x y. Rearranged (block_of x) (block_of y) };

    ghost alike = { SameBlock };

    ghost same = { blocks_same };

    ghost both_read = { λ bs cs x y. blocks_alike bs cs (block_of x) (block_of y) };

    ghost unread = { blocks_unread };

    fn read(bytes: &[u8]) -> Result<DecodedBlock, Fault> {
        read_block(bytes)
    }

    fn reordered(&self, other: &DecodedBlock) -> bool {
        if !same_heading(self, other) {
            return false;
        }
        let mut left = ArrayVec::<Transaction, 1024>::try_from(self.transactions()).unwrap();
        let mut right = ArrayVec::<Transaction, 1024>::try_from(other.transactions()).unwrap();
        same_in_any_order(left.as_mut_slice(), right.as_mut_slice())
    }
}

impl Message for DecodedFounding {
    ghost says = { λ bs x. Founds bs (grants_of x) };

    ghost refuses = { Refused is_grant };

    ghost reorders = { λ x y. IsPermutation (grants_of x) (grants_of y) };

    ghost alike = { SameFounding };

    ghost same = { foundings_same };

    ghost both_read = { λ bs cs x y. foundings_alike bs cs (grants_of x) (grants_of y) };

    ghost unread = { foundings_unread };

    fn read(bytes: &[u8]) -> Result<DecodedFounding, Fault> {
        read_founding(bytes)
    }

    fn reordered(&self, other: &DecodedFounding) -> bool {
        let mut left = ArrayVec::<Grant, 579>::try_from(self.grants()).unwrap();
        let mut right = ArrayVec::<Grant, 579>::try_from(other.grants()).unwrap();
        same_in_any_order(left.as_mut_slice(), right.as_mut_slice())
    }
}

// Whether all but the transactions is the same.
fn same_heading(first: &DecodedBlock, second: &DecodedBlock) -> bool
    ensures { Decides result (SameHeading (block_of first.now) (block_of second.now)) }
{
    first.height() == second.height()
        && first.parent() == second.parent()
        && first.prices() == second.prices()
        && first.volumes() == second.volumes()
}
