// What stands in a book ahead of a key, by its questions. Assumes nothing.
ghost use Rattle.std.specs.Prelude.{◌≡◌};
ghost use Rattle.terms.specs.Order.{words};
ghost use Rattle.fills.specs.Ahead.{between, sum_ahead};

use offers::OfferBook;
use terms::Key;

// The sum of the offers that stand between two keys.
fn sum_between<B: OfferBook>(book: &B, low: Key, high: Key) -> u64
    ensures { result ≡ between (words low) (words high) (B.book book.now).offers }
{
    let mut total: u64 = 0;
    let mut last = low;
    while let Some(key) = book.next(last) {
        if key >= high {
            return total;
        }
        total += book.amount(key);
        last = key;
    }
    total
}

// The sum of the offers of the key's pair that stand before it: those of lower limits, and those of the same limit.
pub(crate) fn standing_ahead<B: OfferBook>(book: &B, key: Key) -> u64
    ensures { result ≡ sum_ahead key (B.book book.now).offers }
{
    let first = Key {
        account: 0,
        sequence: 0,
        ..key
    };
    let lower = book.up_to(key.sold, key.bought, key.limit.saturating_sub(1));
    lower + sum_between(book, first, key)
}
