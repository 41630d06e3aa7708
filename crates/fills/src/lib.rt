// What a block without fault does with one key: how much of it is sold, and what is paid for it. Assumes nothing; the
// key may be any. No memory is asked for: one pass over the transactions for each part of the sum, and a walk over the
// standing offers of the key's pair and limit.
#![tactic(auto)]

ghost use Rattle.std.specs.Prelude.{◌≡◌, ◌≤◌, true, [], None};
ghost use Rattle.terms.specs.declared.Key.{Key};
ghost use Rattle.terms.specs.Ranges.{every, fit_transaction};
ghost use Rattle.terms.specs.Holdings.{amount_at};
ghost use Rattle.blocks.specs.Decoded.{block_of};
ghost use Rattle.exchange.specs.State.{State};
ghost use Rattle.exchange.specs.Trade.{cancels_of, trading, pay_for, sold, paid};
ghost use Rattle.exchange.specs.Faults.{Verdict};
ghost use Rattle.judging_rules.specs.Rows.{scene, no_store, bundle, deal};
ghost use Rattle.fills.specs.Ahead.{sum_ahead};

mod measures;
mod standing;

use blocks::DecodedBlock;
use judging_prices::price;
use judging_volumes::eligible;
use measures::{cancelled_ahead, cancels, placed_ahead, placed_under, volume_of};
use offers::OfferBook;
use standing::standing_ahead;
use terms::{Key, Transaction};

// The amount in trade under a key: what stands, unless it is cancelled, and what is newly placed.
fn amount_in_trade<B: OfferBook>(book: &B, transactions: &[Transaction], key: Key) -> u128
    requires { every fit_transaction transactions.now ≡ true }
    ensures { result ≡ amount_at (trading (scene no_store (B.book book.now) 0 []) (bundle transactions.now)) key }
{
    let placed = placed_under(transactions, key);
    if cancels(transactions, key) > 0 {
        return placed;
    }
    placed + book.amount(key) as u128
}

// What is in trade ahead of a key: what stands, less the cancelled, and what is newly placed. This is so where no
// offer is cancelled twice.
fn amount_ahead<B: OfferBook>(book: &B, transactions: &[Transaction], key: Key) -> u128
    requires { every fit_transaction transactions.now ≡ true }
    ensures { ((k : Key) → cancels_of (bundle transactions.now) k ≤ 1) → result ≡ sum_ahead key (trading (scene no_store (B.book book.now) 0 []) (bundle transactions.now)) }
{
    let placed = placed_ahead(transactions, key);
    let cancelled = cancelled_ahead(book, transactions, key);
    let standing = standing_ahead(book, key) as u128;
    (placed + standing).saturating_sub(cancelled)
}

// What is paid for so many units of one asset, in units of another: 0 where that one has no price.
fn pay_for(prices: &[u32; 8], sold: u8, bought: u8, units: u64) -> u128
    ensures { result ≡ pay_for (deal prices.now [] []) sold bought units }
{
    let unit = price(prices, bought) as u128;
    if unit == 0 {
        return 0;
    }
    units as u128 * price(prices, sold) as u128 / unit
}

// What a block without fault sells of a key, and what it pays for it. Both are 0 for a key that is not eligible, is not in
// trade or is not reached.
pub fn filled<B: OfferBook>(book: &B, block: &DecodedBlock, key: Key) -> (u64, u64)
    ensures { (s : State) → s.book ≡ (B.book book.now) → Verdict s (block_of block.now) None → (result.0 ≡ sold s (block_of block.now) key) × (result.1 ≡ paid s (block_of block.now) key) }
{
    let prices = block.prices();
    if !eligible(prices, key) {
        return (0, 0);
    }
    let volume = volume_of(block.volumes(), key);
    let transactions = block.transactions();
    let amount = amount_in_trade(book, transactions, key);
    let ahead = amount_ahead(book, transactions, key);
    let units = amount.min(volume.saturating_sub(ahead)) as u64;
    let pay = pay_for(prices, key.sold, key.bought, units) as u64;
    (units, pay)
}
