// The questions that a replica answers: about its own numbers, its store and its book. None changes anything. What is asked
// of the store or the book also tells that it is in order and in range, since a caller sees the state alone.
ghost use Rattle.std.specs.Prelude.{◌≡◌, [], ◌∷◌, length, map, if◌then◌else◌, true};
ghost use Rattle.terms.specs.Order.{name, words, place, above};
ghost use Rattle.terms.specs.Holdings.{sound_store, sound_book, standing, floor_at, balance_at, free_of, amount_at, offered_of, up_to};
ghost use Rattle.ordered.specs.Places.{told};
ghost use Rattle.exchange.specs.State.{remainder};
ghost use Rattle.replica.specs.Meaning.{Steady};

use crate::life::Replica;
use accounts::AccountStore;
use offers::OfferBook;
use terms::Key;

impl<S: AccountStore, B: OfferBook> Replica<S, B> {
    // How many blocks have been committed since the founding.
    pub fn height(&self) -> u32
        ensures { result ≡ self.now.own.height }
    {
        self.numbers.height
    }

    // The digest of the state: zeros before the founding. Store and book are sound, and from the founding on so is the state.
    pub fn digest(&self) -> [u8; 32]
        ensures value { result ≡ self.now.own.digest }
        ensures store { sound_store self.now.store ≡ true }
        ensures book { sound_book self.now.book ≡ true }
        ensures steady { Steady self.now }
    {
        self.numbers.digest
    }

    // What rounding has left over of an asset: 0 for an asset above 7.
    pub fn remainder(&self, asset: u8) -> u64
        ensures value { result ≡ remainder self.now asset }
        ensures eight { length self.now.own.remainders ≡ 8 }
    {
        self.numbers
            .remainders
            .get(asset as usize)
            .copied()
            .unwrap_or(0)
    }

    // How many checks were passed.
    pub fn passed(&self) -> u32
        ensures { result ≡ self.now.counts.passed }
    {
        self.numbers.passed
    }

    // How many blocks were committed.
    pub fn committed(&self) -> u32
        ensures value { result ≡ self.now.counts.committed }
        ensures height { self.now.counts.committed ≡ self.now.own.height }
    {
        self.numbers.height
    }

    // How many commits were refused; it stops at 4,294,967,295.
    pub fn lapsed(&self) -> u32
        ensures { result ≡ self.now.counts.lapsed }
    {
        self.numbers.lapsed
    }

    // How many blocks were rejected; it stops at 4,294,967,295.
    pub fn rejected(&self) -> u32
        ensures { result ≡ self.now.counts.rejected }
    {
        self.numbers.rejected
    }

    // Whether an account stands.
    pub fn stands(&self, number: u32) -> bool
        ensures value { (if result then 1 else 0) ≡ standing self.now.store number }
        ensures store { sound_store self.now.store ≡ true }
    {
        self.store.stands(number)
    }

    // A free balance: 0 for an absent account or an asset above 7.
    pub fn balance(&self, number: u32, asset: u8) -> u64
        ensures value { result ≡ balance_at self.now.store number asset }
        ensures store { sound_store self.now.store ≡ true }
    {
        self.store.balance(number, asset)
    }

    // The eight free balances of an account, by rising asset: 0 for an absent account.
    pub fn balances(&self, number: u32) -> [u64; 8]
        ensures value { result ≡ map (balance_at self.now.store number) (0 ∷ 1 ∷ 2 ∷ 3 ∷ 4 ∷ 5 ∷ 6 ∷ 7 ∷ []) }
        ensures store { sound_store self.now.store ≡ true }
    {
        accounts::balances(&self.store, number)
    }

    // The highest sequence number that an account has used: 0 for an absent account.
    pub fn floor(&self, number: u32) -> u32
        ensures value { result ≡ floor_at self.now.store number }
        ensures store { sound_store self.now.store ≡ true }
    {
        self.store.floor(number)
    }

    // How many accounts stand.
    pub fn accounts(&self) -> u32
        ensures value { result ≡ length self.now.store.accounts }
        ensures store { sound_store self.now.store ≡ true }
    {
        self.store.count()
    }

    // How many accounts may stand.
    pub fn account_capacity(&self) -> u32
        ensures value { result ≡ self.now.store.capacity }
        ensures store { sound_store self.now.store ≡ true }
    {
        self.store.capacity()
    }

    // The highest number that an account may have.
    pub fn top(&self) -> u32
        ensures value { result ≡ self.now.store.top }
        ensures store { sound_store self.now.store ≡ true }
    {
        self.store.top()
    }

    // The sum of all free balances of an asset.
    pub fn free(&self, asset: u8) -> u64
        ensures value { result ≡ free_of self.now.store asset }
        ensures store { sound_store self.now.store ≡ true }
    {
        self.store.total(asset)
    }

    // The lowest standing account above a number.
    pub fn next_account(&self, number: u32) -> Option<u32>
        ensures value { told (λ n. n ∷ []) result ≡ above name self.now.store.accounts (number ∷ []) }
        ensures store { sound_store self.now.store ≡ true }
    {
        self.store.next(number)
    }

    // The amount that a key sells: 0 where it does not stand.
    pub fn amount(&self, key: Key) -> u64
        ensures value { result ≡ amount_at self.now.book.offers key }
        ensures book { sound_book self.now.book ≡ true }
    {
        self.book.amount(key)
    }

    // How many offers stand.
    pub fn offers(&self) -> u32
        ensures value { result ≡ length self.now.book.offers }
        ensures book { sound_book self.now.book ≡ true }
    {
        self.book.count()
    }

    // How many offers may stand.
    pub fn offer_capacity(&self) -> u32
        ensures value { result ≡ self.now.book.capacity }
        ensures book { sound_book self.now.book ≡ true }
    {
        self.book.capacity()
    }

    // The sum offered of a sold asset.
    pub fn offered(&self, sold: u8) -> u64
        ensures value { result ≡ offered_of self.now.book sold }
        ensures book { sound_book self.now.book ≡ true }
    {
        self.book.offered(sold)
    }

    // The lowest standing key above a key.
    pub fn next_offer(&self, key: Key) -> Option<Key>
        ensures value { told words result ≡ above place self.now.book.offers (words key) }
        ensures book { sound_book self.now.book ≡ true }
    {
        self.book.next(key)
    }

    // The sum of a pair's amounts whose limit is at most the given one.
    pub fn up_to(&self, sold: u8, bought: u8, limit: u32) -> u64
        ensures value { result ≡ up_to self.now.book sold bought limit }
        ensures book { sound_book self.now.book ≡ true }
    {
        self.book.up_to(sold, bought, limit)
    }
}
