// Fills the offers of a block: each pair's offers in trade are walked in key order, only as far as the volume goes;
// filled offers shrink or leave the book, and what they are paid goes to their owners' balances. Assumes nothing; that
// nothing is refused on the way is shown for a block without fault.
#![tactic(auto)]

ghost use Rattle.std.specs.Prelude.{◌≡◌, ℕ, ◌+◌, ◌-◌, ◌*◌, ◌/◌, ◌^◌, ◌<◌, ◌≤◌, true, ◌&&◌, [], ◌∷◌, ◌==◌, nat_le};
ghost use Rattle.terms.specs.declared.Key.{Key};
ghost use Rattle.terms.specs.Holdings.{Store, amount_at};
ghost use Rattle.terms.specs.Ranges.{every, is_price, fit_volume};
ghost use Rattle.blocks.specs.Readable.{Block};
ghost use Rattle.blocks.specs.Decoded.{block_of};
ghost use Rattle.exchange.specs.State.{State};
ghost use Rattle.exchange.specs.Trade.{volume as volume_in, trading};
ghost use Rattle.clearing_walk.specs.Walk.{Ready, FillsDone, SameRoom, largest, Settles, Priced, At, Turned, Bounded, Walked, PairDone, Holds};

mod rates;

use crate::rates::Rates;
use accounts::AccountStore;
use blocks::DecodedBlock;
use offers::OfferBook;
use terms::{Fault, Key, Volume};

// What is sold of an offer, and what is paid for it.
#[derive(Clone, Copy)]
struct Fill {
    key: Key,
    sold: u64,
    paid: u64,
}

// Fills one offer, up to what is left of the volume.
fn settle<S: AccountStore, B: OfferBook>(
    store: &mut S,
    book: &mut B,
    key: Key,
    rest: u64,
    rates: Rates,
) -> Result<Fill, Fault>
    requires { rest ≤ largest }
    ensures { Settles key rest rates (S.store store.old) (S.store store.new) (B.book book.old) (B.book book.new) result }
{
    let amount = book.amount(key);
    let sold = amount.min(rest);
    let paid = sold * rates.sold / rates.bought;
    book.reduce(key, amount - sold)?;
    let had = store.balance(key.account, key.bought);
    store.set_balance(key.account, key.bought, had + paid)?;
    Ok(Fill { key, sold, paid })
}

// Whether a key is an eligible one of the pair of `at`.
fn serves(key: Key, at: Key, rates: Rates) -> bool
    ensures { result ≡ (key.sold == at.sold && key.bought == at.bought && nat_le (key.limit * rates.bought) (rates.sold * 65536)) }
{
    key.sold == at.sold
        && key.bought == at.bought
        && key.limit as u64 * rates.bought <= rates.sold * 65536
}

// One turn of the walk: fills the next offer of the pair of `at`, where there is an eligible one.
fn turn<S: AccountStore, B: OfferBook>(
    store: &mut S,
    book: &mut B,
    at: Key,
    rest: u64,
    rates: Rates,
) -> Result<Option<Fill>, Fault>
    requires some { 0 < rest }
    requires most { rest ≤ largest }
    ensures bounded { Bounded rest rates result }
    ensures kept { SameRoom (B.book book.old).capacity (B.book book.new).capacity result }
    ensures turned { (s : State) (b : Block) (first : Store) → Priced s b first at.sold at.bought rates
        → At s b first at.sold at.bought at rest (S.store store.old) (B.book book.old).offers
        → Turned s b first at.sold at.bought at rest (S.store store.new) (B.book book.new).offers result }
{
    match book.next(at) {
        None => Ok(None),
        Some(key) => {
            if !serves(key, at, rates) {
                return Ok(None);
            }
            let fill = settle(store, book, key, rest, rates)?;
            Ok(Some(fill))
        }
    }
}

// Fills the offers of a pair in key order until the volume is used; gives what is paid.
fn walk_pair<S: AccountStore, B: OfferBook>(
    store: &mut S,
    book: &mut B,
    volume: Volume,
    rates: Rates,
) -> Result<u64, Fault>
    requires { volume.amount ≤ largest }
    ensures kept { SameRoom (B.book book.old).capacity (B.book book.new).capacity result }
    ensures walked { (s : State) (b : Block) (first : Store) → Priced s b first volume.sold volume.bought rates
        → volume.amount ≡ volume_in b volume.sold volume.bought
        → Walked s b first (volume.sold ∷ volume.bought ∷ []) (S.store store.old) (B.book book.old).offers
        → PairDone s b first volume.sold volume.bought (S.store store.new) (B.book book.new).offers result }
{
    let mut rest = volume.amount;
    let mut out: u64 = 0;
    // below every key of the pair, since no limit is 0
    let mut at = Key {
        sold: volume.sold,
        bought: volume.bought,
        limit: 0,
        account: 0,
        sequence: 0,
    };
    // as far as the volume goes
    while rest > 0 {
        match turn(store, book, at, rest, rates)? {
            None => {
                return Ok(out);
            }
            Some(fill) => {
                rest -= fill.sold;
                out += fill.paid;
                at = fill.key;
            }
        }
    }
    Ok(out)
}

// Fills all pairs that have a volume; gives what is paid in each asset.
fn walk_volumes<S: AccountStore, B: OfferBook>(
    store: &mut S,
    book: &mut B,
    prices: &[u32; 8],
    volumes: &[Volume],
) -> Result<[u64; 8], Fault>
    requires priced { every is_price prices.now ≡ true }
    requires fit { every fit_volume volumes.now ≡ true }
    ensures kept { SameRoom (B.book book.old).capacity (B.book book.new).capacity result }
    ensures filled { (s : State) (b : Block) → Holds b prices.now volumes.now
        → Ready s b (S.store store.old)
        → ((j : Key) → amount_at (B.book book.old).offers j ≡ amount_at (trading s b) j)
        → FillsDone s b (S.store store.old) (S.store store.new) (B.book book.new).offers result }
{
    let mut outs = [0u64; 8];
    for v in volumes {
        let i = v.bought as usize;
        let rates = Rates {
            sold: prices[v.sold as usize] as u64,
            bought: prices[i] as u64,
        };
        let out = walk_pair(store, book, *v, rates)?;
        // reaches the largest u64 for no block without fault
        outs[i] = outs[i].saturating_add(out);
    }
    Ok(outs)
}

// Fills the offers of a block; gives what is paid in each asset. The book is to hold the offers in trade, and the store
// the balances without what the block pays.
pub fn walk_all<S: AccountStore, B: OfferBook>(
    store: &mut S,
    book: &mut B,
    block: &DecodedBlock,
) -> Result<[u64; 8], Fault>
    ensures kept { SameRoom (B.book book.old).capacity (B.book book.new).capacity result }
    ensures filled { (s : State) → Ready s (block_of block.now) (S.store store.old)
        → ((j : Key) → amount_at (B.book book.old).offers j ≡ amount_at (trading s (block_of block.now)) j)
        → FillsDone s (block_of block.now) (S.store store.old) (S.store store.new) (B.book book.new).offers result }
{
    walk_volumes(store, book, block.prices(), block.volumes())
}
