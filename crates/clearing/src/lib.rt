// Clears a block: store, book and remainders become what a commit of the block makes of them. Assumes nothing; that
// nothing is refused, and what is left, is shown for a sound state in which the block has no fault.
#![tactic(auto)]

ghost use Rattle.std.specs.Prelude.{◌≡◌, None};
ghost use Rattle.blocks.specs.Decoded.{block_of};
ghost use Rattle.exchange.specs.State.{State};
ghost use Rattle.exchange.specs.Faults.{Verdict};
ghost use Rattle.exchange.specs.Commit.{Sound};
ghost use Rattle.clearing.specs.Clear.{Nets, over, ClearedOr, Commits};

mod remainders;

use crate::remainders::renew;
use accounts::AccountStore;
use blocks::DecodedBlock;
use clearing_book::{cancel_offers, place_offers};
use clearing_store::{apply_nets, open_accounts, raise_floors};
use clearing_walk::walk_all;
use judging_balances::{Slot, nets};
use offers::OfferBook;
use tally::{Ledger, Net};
use terms::Fault;

// Clears a block by its nets. They are worked out before, since cancelled offers are still in the book then; they reach
// the balances in one step each, since what comes in first could pass the largest balance.
fn clear_by<S: AccountStore, B: OfferBook>(
    store: &mut S,
    book: &mut B,
    remainders: &mut [u64; 8],
    block: &DecodedBlock,
    nets: &[Net<Slot>],
) -> Result<(), Fault>
    ensures { (s : State) → Sound (over s (S.store store.old) (B.book book.old) remainders.old)
        → Verdict (over s (S.store store.old) (B.book book.old) remainders.old) (block_of block.now) None
        → Nets (over s (S.store store.old) (B.book book.old) remainders.old) (block_of block.now) nets.now
        → ClearedOr (over s (S.store store.old) (B.book book.old) remainders.old) (block_of block.now)
        (S.store store.new) (B.book book.new) remainders.new result }
{
    let transactions = block.transactions();
    cancel_offers(book, transactions)?;
    place_offers(book, transactions)?;
    apply_nets(store, nets)?;
    let paid = walk_all(store, book, block)?;
    raise_floors(store, transactions)?;
    open_accounts(store, transactions)?;
    renew(remainders, block.volumes(), &paid);
    Ok(())
}

// Clears a block: cancelled offers leave the book and new ones enter; nets reach the balances; the offers are filled and
// paid for; floors rise, new accounts open, and remainders add up. For any state s that has this store, this book and
// these remainders: if s is sound and finds no fault in the block, there is no refusal, and the block is cleared.
pub fn clear<S: AccountStore, B: OfferBook>(
    store: &mut S,
    book: &mut B,
    remainders: &mut [u64; 8],
    block: &DecodedBlock,
) -> Result<(), Fault>
    ensures { (s : State) → s.store ≡ (S.store store.old)
        → s.book ≡ (B.book book.old) → s.own.remainders ≡ remainders.old
        → Sound s → Verdict s (block_of block.now) None
        → ClearedOr s (block_of block.now) (S.store store.new) (B.book book.new) remainders.new result }
{
    let mut ledger = Ledger::new();
    let entries = nets(&mut ledger, book, block.transactions())?;
    clear_by(store, book, remainders, block, entries)
}

// What a clearing leaves is, with the next height, the digest renewed and one more committed, the state that a commit
// gives. It has no other use than that its contract names this law.
pub fn commits() -> u8
    ensures { Commits }
{
    0
}
