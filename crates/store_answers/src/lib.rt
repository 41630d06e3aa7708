// What account stores and offer books answer to the commands of a script, and two of them side by side. Assumes nothing.
// Stores and books have functions of their own: one trait over both would need a wrapper for each.
#![tactic(auto)]

ghost use Rattle.std.specs.Prelude.{◌≡◌, ◌↔◌, IsTrue};
ghost use Rattle.store_answers.specs.Answers.{account_answer, AccountsLeft, offer_answer, OffersLeft};

use accounts::{AccountStore, open_with};
use offers::{OfferBook, replace};
use store_script::{AccountAsk, Answer, OfferAsk};

pub fn ask_accounts<S: AccountStore>(store: &mut S, ask: AccountAsk) -> Answer
    ensures answer { result ≡ account_answer (S.store store.old) ask }
    ensures after { AccountsLeft (S.store store.old) ask (S.store store.new) }
{
    match ask {
        AccountAsk::Open { number } => store.open(number).into(),
        AccountAsk::OpenWith { number, balances } => open_with(store, number, balances).into(),
        AccountAsk::SetBalance {
            number,
            asset,
            value,
        } => store.set_balance(number, asset, value).into(),
        AccountAsk::SetFloor { number, value } => store.set_floor(number, value).into(),
        AccountAsk::Stands { number } => Answer::Flag(store.stands(number)),
        AccountAsk::Balance { number, asset } => Answer::Number(store.balance(number, asset)),
        AccountAsk::Floor { number } => Answer::Number(store.floor(number) as u64),
        AccountAsk::Free { asset } => Answer::Number(store.total(asset)),
        AccountAsk::Count => Answer::Number(store.count() as u64),
        AccountAsk::Capacity => Answer::Number(store.capacity() as u64),
        AccountAsk::Top => Answer::Number(store.top() as u64),
        AccountAsk::Next { number } => match store.next(number) {
            Some(next) => Answer::Number(u64::from(next)),
            None => Answer::Nothing,
        },
    }
}

pub fn ask_offers<B: OfferBook>(book: &mut B, ask: OfferAsk) -> Answer
    ensures answer { result ≡ offer_answer (B.book book.old) ask }
    ensures after { OffersLeft (B.book book.old) ask (B.book book.new) }
{
    match ask {
        OfferAsk::Place { key, units } => book.place(key, units).into(),
        OfferAsk::Reduce { key, units } => book.reduce(key, units).into(),
        OfferAsk::Replace { old, new, units } => replace(book, old, new, units).into(),
        OfferAsk::Amount { key } => Answer::Number(book.amount(key)),
        OfferAsk::Offered { sold } => Answer::Number(book.offered(sold)),
        OfferAsk::UpTo {
            sold,
            bought,
            limit,
        } => Answer::Number(book.up_to(sold, bought, limit)),
        OfferAsk::Count => Answer::Number(book.count() as u64),
        OfferAsk::Capacity => Answer::Number(book.capacity() as u64),
        OfferAsk::Next { key } => match book.next(key) {
            Some(k) => Answer::Offer(k),
            None => Answer::Nothing,
        },
    }
}

// The answers of two makes to one command.
#[derive(Clone, Copy, PartialEq, Eq)]
pub struct Compared {
    pub first: Answer,
    pub second: Answer,
}

impl Compared {
    // Whether the two are equal.
    pub fn agree(&self) -> bool
        ensures { IsTrue result ↔ (self.now.first ≡ self.now.second) }
    {
        self.first == self.second
    }
}

// Asks both stores the same; where they mean the same, the answers agree.
pub fn compare_stores<S: AccountStore, T: AccountStore>(
    one: &mut S,
    other: &mut T,
    ask: AccountAsk,
) -> Compared
    ensures first { result.first ≡ account_answer (S.store one.old) ask }
    ensures second { result.second ≡ account_answer (T.store other.old) ask }
    ensures agree { (S.store one.old) ≡ (T.store other.old) → result.first ≡ result.second }
    ensures left { AccountsLeft (S.store one.old) ask (S.store one.new) }
    ensures others { AccountsLeft (T.store other.old) ask (T.store other.new) }
{
    let first = ask_accounts(one, ask);
    let second = ask_accounts(other, ask);
    Compared { first, second }
}

// Asks both books the same; where they mean the same, the answers agree.
pub fn compare_books<B: OfferBook, C: OfferBook>(
    one: &mut B,
    other: &mut C,
    ask: OfferAsk,
) -> Compared
    ensures first { result.first ≡ offer_answer (B.book one.old) ask }
    ensures second { result.second ≡ offer_answer (C.book other.old) ask }
    ensures agree { (B.book one.old) ≡ (C.book other.old) → result.first ≡ result.second }
    ensures left { OffersLeft (B.book one.old) ask (B.book one.new) }
    ensures others { OffersLeft (C.book other.old) ask (C.book other.new) }
{
    let first = ask_offers(one, ask);
    let second = ask_offers(other, ask);
    Compared { first, second }
}
