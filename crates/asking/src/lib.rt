// The questions that may be put to a replica, each with its reply as a value. Assumes nothing.
#![tactic(auto)]

ghost use Rattle.std.specs.Prelude.{◌≡◌};
ghost use Rattle.exchange.specs.Life.{reply as replies};
ghost use Rattle.asking.specs.Questions.{question_of, reply_of};

mod questions;

use accounts::AccountStore;
use offers::OfferBook;
pub use questions::{Question, Reply};
use replica::Replica;

// The answer to a question.
pub fn ask<S: AccountStore, B: OfferBook>(replica: &Replica<S, B>, question: Question) -> Reply
    ensures { reply_of result ≡ replies replica.now (question_of question) }
{
    match question {
        Question::Height => replica.height().into(),
        Question::Digest => Reply::Digest(replica.digest()),
        Question::Passed => replica.passed().into(),
        Question::Committed => replica.committed().into(),
        Question::Lapsed => replica.lapsed().into(),
        Question::Rejected => replica.rejected().into(),
        Question::Accounts => replica.accounts().into(),
        Question::AccountCapacity => replica.account_capacity().into(),
        Question::Top => replica.top().into(),
        Question::Offers => replica.offers().into(),
        Question::OfferCapacity => replica.offer_capacity().into(),
        Question::Remainder(asset) => replica.remainder(asset).into(),
        Question::Free(asset) => replica.free(asset).into(),
        Question::Offered(asset) => replica.offered(asset).into(),
        Question::Stands(number) => Reply::Number(replica.stands(number) as u64),
        Question::Floor(number) => replica.floor(number).into(),
        Question::Balance(number, asset) => replica.balance(number, asset).into(),
        Question::Amount(key) => replica.amount(key).into(),
        Question::AccountAbove(number) => Reply::Account(replica.next_account(number)),
        Question::OfferAbove(key) => Reply::Offer(replica.next_offer(key)),
        Question::UpTo(sold, bought, limit) => replica.up_to(sold, bought, limit).into(),
    }
}
