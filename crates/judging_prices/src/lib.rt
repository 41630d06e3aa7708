// The prices clear the volumes: what is sold for an asset is worth no more than what is sold of it. Assumes nothing:
// of more than 56 volumes, as no readable block has, the test refuses with fault 4.
#![tactic(auto)]

ghost use Rattle.std.specs.Prelude.{◌≡◌, ℕ, ◌+◌, ◌*◌, ◌^◌, ◌<◌, ◌≤◌, List, [], ◌==◌, length, filter, Err, sum_by, nat_lt, slice_index};
ghost use Rattle.exchange.specs.Trade.{volume_of, worth_for, price as price_in};
ghost use Rattle.exchange.specs.Faults.{fault};
ghost use Rattle.exchange.specs.Faults.Cause.{uncleared};
ghost use Rattle.judging_rules.specs.Rows.{Row, scene, no_store, no_book, deal};
ghost use Rattle.judging_prices.specs.Worth.{worth_of};

use tally::{Rule, report};
use terms::{ASSETS, Cause, Fault, Volume};

// As many pairs as there are.
pub const MAX_VOLUMES: usize = 56;

// The price of an asset: 0 above asset 7.
pub fn price(prices: &[u32; 8], asset: u8) -> u32
    ensures { result ≡ slice_index prices.now asset }
{
    prices.get(asset as usize).copied().unwrap_or(0)
}

// What a volume is worth.
fn worth(prices: &[u32; 8], v: Volume) -> u128
    ensures is { result ≡ worth_of prices.now v }
    ensures small { result < 2 ^ 96 }
{
    v.amount as u128 * price(prices, v.sold) as u128
}

// What is sold of an asset, by its worth. This and the next differ in their test alone; with the test as a closure
// parameter, the bound of the sum was not proved.
fn worth_sold(prices: &[u32; 8], volumes: &[Volume], asset: u8) -> u128
    requires { length volumes.now ≤ 56 }
    ensures { result ≡ sum_by (worth_of prices.now) (filter (λ v. v.sold == asset) volumes.now) }
{
    volumes
        .iter()
        .filter(|v| v.sold == asset)
        .map(|v| worth(prices, *v))
        .sum()
}

// What is sold for an asset, by its worth.
fn worth_bought(prices: &[u32; 8], volumes: &[Volume], asset: u8) -> u128
    requires { length volumes.now ≤ 56 }
    ensures { result ≡ sum_by (worth_of prices.now) (filter (λ v. v.bought == asset) volumes.now) }
{
    volumes
        .iter()
        .filter(|v| v.bought == asset)
        .map(|v| worth(prices, *v))
        .sum()
}

// Of an asset no less is sold than is sold for it, by worth.
#[derive(Drop)]
struct Clearing<'a> {
    prices: &'a [u32; 8],
    volumes: &'a [Volume],
    ghost few: { length volumes.now ≤ 56 },
}

impl<'a> Rule<u8> for Clearing<'a> {
    ghost broken = { λ r x. nat_lt (volume_of (deal r.prices.now r.volumes.now []) x * price_in (deal r.prices.now r.volumes.now []) x) (worth_for (deal r.prices.now r.volumes.now []) x) };

    fn breaks(&self, x: u8) -> bool {
        worth_sold(self.prices, self.volumes, x) < worth_bought(self.prices, self.volumes, x)
    }
}

// For no asset is more sold, by worth, than is sold of it.
pub fn prices_clear<'a>(prices: &'a [u32; 8], volumes: &'a [Volume]) -> Result<(), Fault>
    ensures row { length volumes.now ≤ 56 → Row (scene no_store no_book 0 []) (deal prices.now volumes.now []) uncleared result }
    ensures many { 56 < length volumes.now → result ≡ Err (fault 4 0 0) }
{
    if volumes.len() > MAX_VOLUMES {
        return Err(Cause::OutOfTurn.into());
    }
    report(
        &Clearing { prices, volumes },
        Cause::Uncleared as u8,
        &ASSETS,
    )
}
