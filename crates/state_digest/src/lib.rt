// The digest of a replica's state: SHA-256 of its height, its remainders, its accounts by rising number and its offers
// by rising key, as bytes. Assumes nothing: any account store and any offer book will do.
#![tactic(auto)]

ghost use Rattle.std.specs.Prelude.{◌≡◌, ℕ, List, ◌++◌};
ghost use Rattle.std.specs.List.{ContainsAt as Has, flat_map};
ghost use Rattle.terms.specs.declared.Account.{Account};
ghost use Rattle.terms.specs.Bytes.{bytes_of};
ghost use Rattle.terms.specs.Holdings.{amount_at};
ghost use Rattle.sha256.specs.Streaming.{Holds};
ghost use Rattle.exchange.specs.State.{State};
ghost use Rattle.exchange.specs.Commit.{account_bytes, key_bytes, offer_bytes, digest_of};

use accounts::{AccountStore, balances};
use offers::OfferBook;
use sha256::Hasher;
use terms::Key;

// The letter that a state's bytes begin with.
const STATE: u8 = 0x53;

// The digest of the state that has this store, book, height and remainders.
pub fn state_digest<S: AccountStore, B: OfferBook>(
    store: &S,
    book: &B,
    height: u32,
    remainders: &[u64; 8],
) -> [u8; 32]
    ensures { (s : State) → s.store ≡ (S.store store.now) → s.book ≡ (B.book book.now) → s.own.height ≡ height → s.own.remainders ≡ remainders.now → result ≡ digest_of s }
{
    let mut hasher = Hasher::new();
    hasher.update(&[STATE]);
    hasher.update(&height.to_be_bytes());
    add_amounts(&mut hasher, remainders);
    hasher.update(&store.count().to_be_bytes());
    add_accounts(&mut hasher, store);
    hasher.update(&book.count().to_be_bytes());
    add_offers(&mut hasher, book);
    hasher.finish()
}

// Takes eight bytes of each amount.
fn add_amounts(hasher: &mut Hasher, amounts: &[u64; 8])
    ensures { (m : List ℕ) → Holds hasher.old m → Holds hasher.new (m ++ flat_map (bytes_of 8) amounts.now) }
{
    for amount in amounts {
        hasher.update(&amount.to_be_bytes());
    }
}

// Takes all accounts, by rising number.
fn add_accounts<S: AccountStore>(hasher: &mut Hasher, store: &S)
    ensures { (m : List ℕ) → Holds hasher.old m → Holds hasher.new (m ++ flat_map account_bytes (S.store store.now).accounts) }
{
    let mut at = 0;
    while let Some(number) = store.next(at) {
        add_account(hasher, store, number);
        at = number;
    }
}

// Takes one account that stands.
fn add_account<S: AccountStore>(hasher: &mut Hasher, store: &S, number: u32)
    ensures { (m : List ℕ) (a : Account) → Has (S.store store.now).accounts a → a.number ≡ number → Holds hasher.old m → Holds hasher.new (m ++ account_bytes a) }
{
    hasher.update(&number.to_be_bytes());
    hasher.update(&store.floor(number).to_be_bytes());
    add_amounts(hasher, &balances(store, number));
}

// Takes all offers, by rising key.
fn add_offers<B: OfferBook>(hasher: &mut Hasher, book: &B)
    ensures { (m : List ℕ) → Holds hasher.old m → Holds hasher.new (m ++ flat_map offer_bytes (B.book book.now).offers) }
{
    let mut at = Key {
        sold: 0,
        bought: 0,
        limit: 0,
        account: 0,
        sequence: 0,
    };
    while let Some(key) = book.next(at) {
        add_offer(hasher, key, book.amount(key));
        at = key;
    }
}

// Takes one offer.
fn add_offer(hasher: &mut Hasher, key: Key, amount: u64)
    ensures { (m : List ℕ) → Holds hasher.old m → Holds hasher.new (m ++ (key_bytes key ++ bytes_of 8 amount)) }
{
    hasher.update(&[key.sold, key.bought]);
    hasher.update(&key.limit.to_be_bytes());
    hasher.update(&key.account.to_be_bytes());
    hasher.update(&key.sequence.to_be_bytes());
    hasher.update(&amount.to_be_bytes());
}
