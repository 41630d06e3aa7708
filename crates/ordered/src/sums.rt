// Adding up the amounts that records name. Assumes nothing.
ghost use Rattle.std.specs.Prelude.{◌≡◌, ℕ, min, sum_by};

// A record that names an amount of whatever is asked for.
pub trait Amounts<By> {
    ghost amount: { Self → By → ℕ };

    fn amount(&self, by: By) -> u64
        ensures { result ≡ amount self.now by };
}

// The sum of the amounts of all records, or the largest u64 where the sum is larger.
pub fn total<By: Copy, R: Amounts<By>>(records: &[R], by: By) -> u64
    ensures { result ≡ min (sum_by (λ x. R.Amounts.amount x by) records.now) 18446744073709551615 }
{
    let mut sum: u64 = 0;
    for x in records {
        sum = sum.saturating_add(x.amount(by));
    }
    sum
}
