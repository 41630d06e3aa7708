// The accounts and the offers of a block fit into store and book, counted over the whole block. Assumes nothing: of
// more than 1,024 transactions, as no readable block has, each test refuses with fault 6.
#![tactic(auto)]

ghost use Rattle.std.specs.Prelude.{◌≡◌, ℕ, ◌+◌, ◌<◌, ◌≤◌, List, [], length, Err};
ghost use Rattle.std.specs.List.{flat_map};
ghost use Rattle.terms.specs.Asked.{created, placed, cancelled};
ghost use Rattle.exchange.specs.Faults.{fault};
ghost use Rattle.exchange.specs.Faults.Cause.{accounts_full, offers_full};
ghost use Rattle.judging_rules.specs.Rows.{Row, scene, no_store, no_book, bundle};

use accounts::AccountStore;
use offers::OfferBook;
use tally::MAX_ITEMS;
use terms::{Cause, Fault, Transaction};

// How many accounts they open.
fn openings(transactions: &[Transaction]) -> usize
    ensures { result ≡ length (flat_map created transactions.now) }
{
    transactions
        .iter()
        .filter(|t| t.created().is_some())
        .count()
}

// How many offers they place.
fn placements(transactions: &[Transaction]) -> usize
    ensures { result ≡ length (flat_map placed transactions.now) }
{
    transactions.iter().filter(|t| t.placed().is_some()).count()
}

// How many offers they cancel.
fn cancellations(transactions: &[Transaction]) -> usize
    ensures { result ≡ length (flat_map cancelled transactions.now) }
{
    transactions
        .iter()
        .filter(|t| t.cancelled().is_some())
        .count()
}

// The accounts that stand and the new ones do not exceed the store's capacity.
pub fn accounts_fit<S: AccountStore>(store: &S, transactions: &[Transaction]) -> Result<(), Fault>
    ensures row { length transactions.now ≤ 1024 → Row (scene (S.store store.now) no_book 0 []) (bundle transactions.now) accounts_full result }
    ensures many { 1024 < length transactions.now → result ≡ Err (fault 6 0 0) }
{
    if transactions.len() > MAX_ITEMS {
        return Err(Cause::TooManyTransactions.into());
    }
    let new = openings(transactions);
    let room = store.capacity() as u128;
    let wanted = store.count() as u128 + new as u128;
    if room < wanted {
        return Err(Cause::AccountsFull.into());
    }
    Ok(())
}

// The offers that stand, without the cancelled and with the new ones, do not exceed the book's capacity.
pub fn offers_fit<B: OfferBook>(book: &B, transactions: &[Transaction]) -> Result<(), Fault>
    ensures row { length transactions.now ≤ 1024 → Row (scene no_store (B.book book.now) 0 []) (bundle transactions.now) offers_full result }
    ensures many { 1024 < length transactions.now → result ≡ Err (fault 6 0 0) }
{
    if transactions.len() > MAX_ITEMS {
        return Err(Cause::TooManyTransactions.into());
    }
    let new = placements(transactions);
    let gone = cancellations(transactions);
    let room = book.capacity() as u128 + gone as u128;
    let wanted = book.count() as u128 + new as u128;
    if room < wanted {
        return Err(Cause::OffersFull.into());
    }
    Ok(())
}
