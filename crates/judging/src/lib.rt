// Judging a readable block against a replica's state: it is good, or the answer is its least fault. Assumes nothing:
// all that the tests lean on is known of every decoded block.
#![tactic(auto)]

ghost use Rattle.std.specs.Prelude.{ℕ, ◌≤◌, List};
ghost use Rattle.terms.specs.declared.Key.{Key};
ghost use Rattle.terms.specs.Holdings.{Store, Book};
ghost use Rattle.blocks.specs.Decoded.{block_of};
ghost use Rattle.exchange.specs.Trade.{cancels_of};
ghost use Rattle.judging_rules.specs.Rows.{scene};
ghost use Rattle.judging.specs.Verdicts.{Stage, Judges};

use accounts::AccountStore;
use blocks::DecodedBlock;
use judging_balances::balances_covered;
use judging_heading::{height_follows, parent_matches};
use judging_prices::prices_clear;
use judging_repeats::{cancelled_once, openings_good, tags_differ};
use judging_room::{accounts_fit, offers_fit};
use judging_rules::{cancelled_stand, receivers_stand, sequences_in_window, sources_stand};
use judging_volumes::volumes_supplied;
use offers::OfferBook;
use terms::Fault;

// Causes 8 to 10: height, parent and prices.
fn judge_heading(height: u32, digest: &[u8; 32], block: &DecodedBlock) -> Result<(), Fault>
    ensures { (st : Store) (bk : Book) → Stage (scene st bk height digest.now) (block_of block.now) 8 11 result }
{
    height_follows(height, block.height())?;
    parent_matches(digest, block.parent())?;
    prices_clear(block.prices(), block.volumes())
}

// Causes 11 to 17: each transaction, and those that repeat another.
fn judge_transactions<S: AccountStore, B: OfferBook>(
    store: &S,
    book: &B,
    block: &DecodedBlock,
) -> Result<(), Fault>
    ensures { (h : ℕ) (d : List ℕ) → Stage (scene (S.store store.now) (B.book book.now) h d) (block_of block.now) 11 18 result }
{
    let transactions = block.transactions();
    sources_stand(store, transactions)?;
    sequences_in_window(store, transactions)?;
    tags_differ(transactions)?;
    receivers_stand(store, transactions)?;
    openings_good(store, transactions)?;
    cancelled_stand(book, transactions)?;
    cancelled_once(transactions)
}

// Causes 18 to 21: balances, room and volumes. What it tells holds where no offer is cancelled twice.
fn judge_totals<S: AccountStore, B: OfferBook>(
    store: &S,
    book: &B,
    block: &DecodedBlock,
) -> Result<(), Fault>
    ensures { ((k : Key) → cancels_of (block_of block.now) k ≤ 1) → (h : ℕ) (d : List ℕ) → Stage (scene (S.store store.now) (B.book book.now) h d) (block_of block.now) 18 22 result }
{
    let transactions = block.transactions();
    balances_covered(store, book, transactions)?;
    accounts_fit(store, transactions)?;
    offers_fit(book, transactions)?;
    volumes_supplied(book, block.prices(), block.volumes(), transactions)
}

// The verdict on a block at a replica of this height and digest, over this store and this book.
pub fn judge<S: AccountStore, B: OfferBook>(
    store: &S,
    book: &B,
    height: u32,
    digest: &[u8; 32],
    block: &DecodedBlock,
) -> Result<(), Fault>
    ensures { Judges (S.store store.now) (B.book book.now) height digest.now (block_of block.now) result }
{
    judge_heading(height, digest, block)?;
    judge_transactions(store, book, block)?;
    judge_totals(store, book, block)
}
