// Offer books, by what they mean: a capacity, and for each standing key the amount that it sells.
// No function asks anything of its caller, and questions and refusals change no meaning.
#![tactic(auto)]

ghost use Rattle.std.specs.Prelude.{◌≡◌, ℕ, ◌+◌, ◌<◌, ◌≤◌, ◌&&◌, length, MatchResult, true};
ghost use Rattle.terms.specs.Order.{words, place, above};
ghost use Rattle.terms.specs.Ranges.{fit_key, is_amount};
ghost use Rattle.terms.specs.Holdings.{Book, sound_book, amount_at, offered_of, up_to};
ghost use Rattle.ordered.specs.Places.{told};
ghost use Rattle.offers.specs.Changes.{place_answer, reduce_answer, taken, replace_answer, Placed, Reduced, Replaced};

pub use terms::MAX_AMOUNT;
use terms::{Cause, Fault, Key, is_amount, is_pair};

pub trait OfferBook {
    // what it means
    ghost book: { Self → Book };

    // The amount that a key sells: 0 where it does not stand.
    fn amount(&self, key: Key) -> u64
        ensures { result ≡ amount_at (book self.now).offers key };

    // How many offers stand.
    fn count(&self) -> u32
        ensures { result ≡ length (book self.now).offers };

    // How many may stand.
    fn capacity(&self) -> u32
        ensures { result ≡ (book self.now).capacity };

    // The sum offered of one sold asset.
    fn offered(&self, sold: u8) -> u64
        ensures { result ≡ offered_of (book self.now) sold };

    // The lowest standing key above a given one.
    fn next(&self, key: Key) -> Option<Key>
        ensures { told words result ≡ above place (book self.now).offers (words key) };

    // The sum of a pair's amounts whose limit is at most the given one.
    fn up_to(&self, sold: u8, bought: u8, limit: u32) -> u64
        ensures { result ≡ up_to (book self.now) sold bought limit };

    // Adds a key that sells so many units. Refuses with 28, 29 or 31.
    fn place(&mut self, key: Key, units: u64) -> Result<(), Fault>
        ensures answer { result ≡ place_answer (book self.old) key units }
        ensures after { MatchResult result (λ _. Placed (book self.old) key units (book self.new)) (λ _. book self.new ≡ book self.old) };

    // Sets a standing key to a smaller or equal amount; 0 removes it. Refuses with 30 or 31.
    fn reduce(&mut self, key: Key, units: u64) -> Result<(), Fault>
        ensures answer { result ≡ reduce_answer (book self.old) key units }
        ensures after { MatchResult result (λ _. Reduced (book self.old) key units (book self.new)) (λ _. book self.new ≡ book self.old) };

    // The offers stand in order and in range, and no more of them than there is room for.
    ghost sound: { (s : Self) → sound_book (book s) ≡ true };
}

// Whether a key and an amount are in range, and the two assets differ.
pub fn in_range(key: Key, units: u64) -> bool
    ensures { result ≡ (fit_key key && is_amount units) }
{
    is_key(key) && is_amount(units)
}

fn is_key(key: Key) -> bool
    ensures { result ≡ fit_key key }
{
    is_pair(key.sold, key.bought) && key.limit > 0 && key.account > 0
}

// Whether an offer other than `old` stands at `new`.
fn is_taken<B: OfferBook>(book: &B, old: Key, new: Key) -> bool
    ensures { result ≡ taken (B.book book.now) old new }
{
    old != new && book.amount(new) > 0
}

// Takes the offer `old` out and places `new`, which may be the same key, with so many units. Refuses with 28 where
// another offer stands at `new`, 30 where `old` does not stand, 31 where `new` or its amount is out of range, and
// never otherwise, not for want of room; then nothing has changed.
pub fn replace<B: OfferBook>(book: &mut B, old: Key, new: Key, units: u64) -> Result<(), Fault>
    ensures answer { result ≡ replace_answer (B.book book.old) old new units }
    ensures after { MatchResult result (λ _. Replaced (B.book book.old) old new units (B.book book.new)) (λ _. B.book book.new ≡ B.book book.old) }
{
    if is_taken(book, old, new) {
        return Err(Cause::StandsAlready.into());
    }
    if book.amount(old) == 0 {
        return Err(Cause::Absent.into());
    }
    if !in_range(new, units) {
        return Err(Cause::BadOperand.into());
    }
    book.reduce(old, 0)?;
    book.place(new, units)
}
