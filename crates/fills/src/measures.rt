// What transactions place and cancel under a key and ahead of it, and what the volumes sell of its pair: sums over a block.
// Assumes no more than that a list has fewer than 2^64 entries, so that the sums fit. The sums differ in their test alone;
// with the test as a closure parameter, their bounds were not proved.
ghost use Rattle.std.specs.Prelude.{◌≡◌, ◌<◌, ◌^◌, [], ◌∷◌, length, filter, if◌then◌else◌, sum_by};
ghost use Rattle.terms.specs.Order.{same, words, place};
ghost use Rattle.terms.specs.Asked.{placed, cancelled};
ghost use Rattle.terms.specs.Holdings.{amount_at};
ghost use Rattle.blocks.specs.Readable.{pair};
ghost use Rattle.fills.specs.Ahead.{ahead};

use offers::OfferBook;
use terms::{Key, Transaction, Volume};

// Whether a key stands before `key` in its pair.
fn is_ahead(other: Key, key: Key) -> bool
    ensures { result ≡ ahead key other }
{
    other.sold == key.sold && other.bought == key.bought && other < key
}

// What is sold of the key's pair.
pub(crate) fn volume_of(volumes: &[Volume], key: Key) -> u128
    requires { length volumes.now < 2 ^ 64 }
    ensures { result ≡ sum_by (λ v. v.amount) (filter (λ v. same (pair v) (key.sold ∷ key.bought ∷ [])) volumes.now) }
{
    volumes
        .iter()
        .filter(|v| v.sold == key.sold && v.bought == key.bought)
        .map(|v| v.amount as u128)
        .sum()
}

// What is newly placed under a key.
pub(crate) fn placed_under(transactions: &[Transaction], key: Key) -> u128
    requires { length transactions.now < 2 ^ 64 }
    ensures { result ≡ sum_by (λ t. sum_by (λ o. (if same (place o) (words key) then o.amount else 0)) (placed t)) transactions.now }
{
    transactions
        .iter()
        .map(|t| match t.placed() {
            Some(o) if o.key == key => o.amount as u128,
            _ => 0,
        })
        .sum()
}

// How often a key is cancelled.
pub(crate) fn cancels(transactions: &[Transaction], key: Key) -> u128
    requires { length transactions.now < 2 ^ 64 }
    ensures { result ≡ sum_by (λ t. sum_by (λ k. (if same (words k) (words key) then 1 else 0)) (cancelled t)) transactions.now }
{
    transactions
        .iter()
        .map(|t| match t.cancelled() {
            Some(k) if k == key => 1,
            _ => 0,
        })
        .sum()
}

// What is newly placed ahead of a key.
pub(crate) fn placed_ahead(transactions: &[Transaction], key: Key) -> u128
    requires { length transactions.now < 2 ^ 64 }
    ensures { result ≡ sum_by (λ t. sum_by (λ o. (if ahead key o.key then o.amount else 0)) (placed t)) transactions.now }
{
    transactions
        .iter()
        .map(|t| match t.placed() {
            Some(o) if is_ahead(o.key, key) => o.amount as u128,
            _ => 0,
        })
        .sum()
}

// What is cancelled ahead of a key: the amounts that stand in the book.
pub(crate) fn cancelled_ahead<B: OfferBook>(
    book: &B,
    transactions: &[Transaction],
    key: Key,
) -> u128
    requires { length transactions.now < 2 ^ 64 }
    ensures { result ≡ sum_by (λ t. sum_by (λ k. (if ahead key k then amount_at (B.book book.now).offers k else 0)) (cancelled t)) transactions.now }
{
    transactions
        .iter()
        .map(|t| match t.cancelled() {
            Some(k) if is_ahead(k, key) => book.amount(k) as u128,
            _ => 0,
        })
        .sum()
}
