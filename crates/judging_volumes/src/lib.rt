// No volume exceeds what is eligible of its pair: the book's offers without the cancelled and with the new, as far as
// the prices meet their limits. Assumes nothing: of more than 1,024 transactions, as no readable block has, the test
// refuses with fault 6. What it tells holds where no offer is cancelled twice and the volumes rise by their pairs.
#![tactic(auto)]

ghost use Rattle.std.specs.Prelude.{◌≡◌, ℕ, ◌*◌, ◌<◌, ◌≤◌, [], length, if◌then◌else◌, Err, nat_le, nat_lt, slice_index};
ghost use Rattle.std.specs.List.{flat_map, AllByRecursion};
ghost use Rattle.terms.specs.declared.Key.{Key};
ghost use Rattle.terms.specs.Order.{Rising};
ghost use Rattle.terms.specs.Holdings.{amount_at};
ghost use Rattle.blocks.specs.Readable.{pair};
ghost use Rattle.exchange.specs.Trade.{cancels_of, eligible as eligible_at, supply};
ghost use Rattle.exchange.specs.Faults.{fault};
ghost use Rattle.exchange.specs.Faults.Cause.{excess_volume};
ghost use Rattle.tally.specs.Least.{spot};
ghost use Rattle.tally.specs.Tally.{Tallied, Small};
ghost use Rattle.judging_rules.specs.Rows.{Row, scene, no_store, bundle, deal};
ghost use Rattle.judging_volumes.specs.Trades.{pair_of, trades};

use judging_prices::price;
use offers::OfferBook;
use tally::{Effect, Gather, Ledger, Net, Place, Rule, look_up, report};
use terms::{Action, Cause, Fault, Key, Transaction, Volume};

// The prices meet the key's limit.
pub fn eligible(prices: &[u32; 8], key: Key) -> bool
    ensures { result ≡ eligible_at (deal prices.now [] []) key }
{
    let wanted = key.limit as u128 * price(prices, key.bought) as u128;
    wanted <= price(prices, key.sold) as u128 * 65536
}

// The highest limit of 32 bits that the prices meet for a pair.
fn highest_limit(prices: &[u32; 8], sold: u8, bought: u8) -> u32
    ensures { (l : ℕ) → l < 4294967296 → nat_le l result ≡ nat_le (l * slice_index prices.now bought) (slice_index prices.now sold * 65536) }
{
    let unit = price(prices, bought) as u64;
    if unit == 0 {
        return u32::MAX;
    }
    let highest = price(prices, sold) as u64 * 65536 / unit;
    highest.min(u32::MAX as u64) as u32
}

// An amount, if the key is eligible, or 0.
fn eligible_amount(prices: &[u32; 8], key: Key, amount: u64) -> u64
    ensures { result ≡ (if eligible_at (deal prices.now [] []) key then amount else 0) }
{
    if eligible(prices, key) { amount } else { 0 }
}

// The pair of a key, as a place.
fn pair_of(key: Key) -> Place
    ensures { result ≡ pair_of key }
{
    Place {
        first: key.sold as u64,
        second: key.bought as u64,
    }
}

// What transactions add to the eligible offers of a pair, and take from them.
#[derive(Drop)]
struct Trades<'a, B> {
    prices: &'a [u32; 8],
    book: &'a B,
}

impl<'a, B: OfferBook> Gather<Transaction, Place> for Trades<'a, B> {
    ghost gives = { λ m t. trades m.prices.now (amount_at (B.book m.book.now).offers) t };

    fn parts(&self, t: Transaction) -> (Option<Effect<Place>>, Option<Effect<Place>>) {
        match t.action {
            Action::Create { .. } | Action::Pay { .. } => (None, None),
            Action::Place {
                sold,
                bought,
                limit,
                amount,
            } => {
                let key = Key {
                    sold,
                    bought,
                    limit,
                    account: t.source,
                    sequence: t.sequence,
                };
                let amount = eligible_amount(self.prices, key, amount);
                (Some(Effect::comes(pair_of(key), amount)), None)
            }
            Action::Cancel {
                sold,
                bought,
                limit,
                offer,
            } => {
                let key = Key {
                    sold,
                    bought,
                    limit,
                    account: t.source,
                    sequence: offer,
                };
                let amount = eligible_amount(self.prices, key, self.book.amount(key));
                (Some(Effect::goes(pair_of(key), amount)), None)
            }
        }
    }
}

// What is eligible of the volume's pair covers it. Leans on the nets being those of the transactions, and on no offer
// being cancelled twice.
#[derive(Drop)]
struct Supplied<'a, B> {
    prices: &'a [u32; 8],
    book: &'a B,
    transactions: &'a [Transaction],
    nets: &'a [Net<Place>],
}

impl<'a, B: OfferBook> Rule<Volume> for Supplied<'a, B> {
    ghost broken = { λ r v. nat_lt (supply (scene no_store (B.book r.book.now) 0 []) (deal r.prices.now [] r.transactions.now) v.sold v.bought) v.amount };

    ghost ready = { λ r. Tallied spot (flat_map (trades r.prices.now (amount_at (B.book r.book.now).offers)) r.transactions.now) r.nets.now × AllByRecursion Small r.nets.now × ((k : Key) → cancels_of (bundle r.transactions.now) k ≤ 1) };

    fn breaks(&self, v: Volume) -> bool {
        let limit = highest_limit(self.prices, v.sold, v.bought);
        let resting = self.book.up_to(v.sold, v.bought, limit) as u128;
        let pair = Place {
            first: v.sold as u64,
            second: v.bought as u64,
        };
        let net = look_up(self.nets, pair);
        resting.saturating_add(net.plus) < (v.amount as u128).saturating_add(net.minus)
    }
}

// No volume exceeds what is eligible of its pair.
pub fn volumes_supplied<'a, B: OfferBook>(
    book: &'a B,
    prices: &'a [u32; 8],
    volumes: &[Volume],
    transactions: &'a [Transaction],
) -> Result<(), Fault>
    ensures row { length transactions.now ≤ 1024 → ((k : Key) → cancels_of (bundle transactions.now) k ≤ 1) → Rising pair volumes.now → Row (scene no_store (B.book book.now) 0 []) (deal prices.now volumes.now transactions.now) excess_volume result }
    ensures many { 1024 < length transactions.now → result ≡ Err (fault 6 0 0) }
{
    let mut ledger = Ledger::new();
    let nets = ledger.sums(&Trades { prices, book }, transactions)?;
    let rule = Supplied {
        prices,
        book,
        transactions,
        nets,
    };
    report(&rule, Cause::ExcessVolume as u8, volumes)
}
