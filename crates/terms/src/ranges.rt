// Tests of ranges that several crates need.
ghost use Rattle.std.specs.Prelude.{◌≡◌};
ghost use Rattle.terms.specs.Ranges.{every, is_pair, is_amount, is_balance};

// The assets.
pub const ASSETS: [u8; 8] = [0, 1, 2, 3, 4, 5, 6, 7];

// The largest balance and the largest amount, 2^36 - 1.
pub const MAX_BALANCE: u64 = 68_719_476_735;

pub const MAX_AMOUNT: u64 = MAX_BALANCE;

// Whether an asset is sold for another.
pub fn is_pair(sold: u8, bought: u8) -> bool
    ensures { result ≡ is_pair sold bought }
{
    sold < 8 && bought < 8 && sold != bought
}

// Whether an amount is in range.
pub fn is_amount(amount: u64) -> bool
    ensures { result ≡ is_amount amount }
{
    amount > 0 && amount <= MAX_AMOUNT
}

// Whether all balances are in range.
pub fn are_balances(balances: &[u64]) -> bool
    ensures { result ≡ every is_balance balances.now }
{
    for balance in balances {
        if *balance > MAX_BALANCE {
            return false;
        }
    }
    true
}
