// Rules that one transaction may break by itself: its source and its receiver stand, its sequence number is one of
// the good ones, the offer that it cancels stands. Standing means before the block. Assumes nothing: each takes any
// account store or offer book and any transactions, and tells the least place at which its rule is broken.
#![tactic(auto)]

ghost use Rattle.std.specs.Prelude.{◌≡◌, not, List, [], ◌==◌, nat_eq};
ghost use Rattle.terms.specs.Holdings.{standing, floor_at, amount_at};
ghost use Rattle.exchange.specs.Trade.{paying, cancelled};
ghost use Rattle.exchange.specs.Faults.{in_window};
ghost use Rattle.exchange.specs.Faults.Cause.{no_source, out_of_window, no_receiver, no_offer};
ghost use Rattle.judging_rules.specs.Rows.{Row, scene, no_store, no_book, bundle, any};

use accounts::AccountStore;
use offers::OfferBook;
use tally::{Rule, report};
use terms::{Action, Cause, Fault, Transaction};

// The source stands.
#[derive(Drop)]
struct Source<'a, S> {
    store: &'a S,
}

impl<'a, S: AccountStore> Rule<Transaction> for Source<'a, S> {
    ghost broken = { λ r t. (standing (S.store r.store.now) t.source == 0) };

    fn breaks(&self, t: Transaction) -> bool {
        !self.store.stands(t.source)
    }
}

pub fn sources_stand<S: AccountStore>(store: &S, transactions: &[Transaction]) -> Result<(), Fault>
    ensures { Row (scene (S.store store.now) no_book 0 []) (bundle transactions.now) no_source result }
{
    report(&Source { store }, Cause::NoSource as u8, transactions)
}

// The sequence number is one of the 64 above the source's floor.
#[derive(Drop)]
struct Window<'a, S> {
    store: &'a S,
}

impl<'a, S: AccountStore> Rule<Transaction> for Window<'a, S> {
    ghost broken = { λ r t. not (in_window (floor_at (S.store r.store.now) t.source) t.sequence) };

    fn breaks(&self, t: Transaction) -> bool {
        let floor = self.store.floor(t.source);
        t.sequence <= floor || t.sequence as u64 > floor as u64 + 64
    }
}

pub fn sequences_in_window<S: AccountStore>(
    store: &S,
    transactions: &[Transaction],
) -> Result<(), Fault>
    ensures { Row (scene (S.store store.now) no_book 0 []) (bundle transactions.now) out_of_window result }
{
    report(&Window { store }, Cause::OutOfWindow as u8, transactions)
}

// The receiver of a payment stands.
#[derive(Drop)]
struct Receiver<'a, S> {
    store: &'a S,
}

impl<'a, S: AccountStore> Rule<Transaction> for Receiver<'a, S> {
    ghost broken = { λ r t. any (λ p. nat_eq (standing (S.store r.store.now) p.receiver) 0) (paying t) };

    fn breaks(&self, t: Transaction) -> bool {
        match t.action {
            Action::Pay { receiver, .. } => !self.store.stands(receiver),
            _ => false,
        }
    }
}

pub fn receivers_stand<S: AccountStore>(
    store: &S,
    transactions: &[Transaction],
) -> Result<(), Fault>
    ensures { Row (scene (S.store store.now) no_book 0 []) (bundle transactions.now) no_receiver result }
{
    report(&Receiver { store }, Cause::NoReceiver as u8, transactions)
}

// A cancelled offer stands.
#[derive(Drop)]
struct Standing<'a, B> {
    book: &'a B,
}

impl<'a, B: OfferBook> Rule<Transaction> for Standing<'a, B> {
    ghost broken = { λ r t. any (λ k. nat_eq (amount_at (B.book r.book.now).offers k) 0) (cancelled t) };

    fn breaks(&self, t: Transaction) -> bool {
        t.cancelled().is_some_and(|key| self.book.amount(key) == 0)
    }
}

pub fn cancelled_stand<B: OfferBook>(book: &B, transactions: &[Transaction]) -> Result<(), Fault>
    ensures { Row (scene no_store (B.book book.now) 0 []) (bundle transactions.now) no_offer result }
{
    report(&Standing { book }, Cause::NoOffer as u8, transactions)
}
