// The book's part of clearing a block: its cancelled offers leave the book, and its new offers enter. All cancelled ones
// are to leave before any new one enters, since the new ones may need their room.
// Assumes nothing: where an offer can't leave or enter, the book's refusal is handed on, and the rest is left undone. Each
// step is a loop of its own: of a closure that changes the book, a proof would not know what it leaves.
#![tactic(auto)]

ghost use Rattle.std.specs.List.{flat_map};
ghost use Rattle.exchange.specs.Trade.{placed, cancelled};
ghost use Rattle.clearing_book.specs.Entries.{LeftOr, EnteredOr};

use offers::OfferBook;
use terms::{Fault, Offer, Transaction};

// Takes out the offer that a transaction cancels, if it cancels one.
fn cancel<B: OfferBook>(book: &mut B, t: Transaction) -> Result<(), Fault>
    ensures { LeftOr (cancelled t) (B.book book.old) (B.book book.new) result }
{
    match t.cancelled() {
        Some(key) => book.reduce(key, 0),
        None => Ok(()),
    }
}

// Places the offer that a transaction makes, if it makes one.
fn place<B: OfferBook>(book: &mut B, t: Transaction) -> Result<(), Fault>
    ensures { EnteredOr (placed t) (B.book book.old) (B.book book.new) result }
{
    match t.placed() {
        Some(Offer { key, amount }) => book.place(key, amount),
        None => Ok(()),
    }
}

// Takes all cancelled offers out of the book. Refuses only where one does not stand or is cancelled twice.
pub fn cancel_offers<B: OfferBook>(book: &mut B, transactions: &[Transaction]) -> Result<(), Fault>
    ensures { LeftOr (flat_map cancelled transactions.now) (B.book book.old) (B.book book.new) result }
{
    for t in transactions {
        cancel(book, *t)?;
    }
    Ok(())
}

// Places all new offers in the book. Refuses only where one stands, is made twice or is out of range, or where they
// are too many.
pub fn place_offers<B: OfferBook>(book: &mut B, transactions: &[Transaction]) -> Result<(), Fault>
    ensures { EnteredOr (flat_map placed transactions.now) (B.book book.old) (B.book book.new) result }
{
    for t in transactions {
        place(book, *t)?;
    }
    Ok(())
}
