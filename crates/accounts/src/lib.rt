// Account stores, by what they mean: a capacity, a top (the highest number that an account may have), and for each
// standing account its floor (the highest sequence number that it has used) and its eight free balances.
// No function asks anything of its caller, and questions and refusals change no meaning.
#![tactic(auto)]

ghost use Rattle.std.specs.Prelude.{◌≡◌, ℕ, ◌+◌, ◌<◌, ◌≤◌, List, [], ◌∷◌, length, map, replicate, if◌then◌else◌, MatchResult, true};
ghost use Rattle.terms.specs.Order.{name, above};
ghost use Rattle.terms.specs.Holdings.{Store, sound_store, standing, floor_at, balance_at, free_of};
ghost use Rattle.ordered.specs.Places.{told};
ghost use Rattle.accounts.specs.Changes.{open_answer, balance_answer, floor_answer, grant_answer, Opened, BalanceSet, FloorSet, Granted};

pub use terms::refusal;
use terms::{ASSETS, Account, Cause, Fault, are_balances};

// As many accounts as a store may have, however much memory it is lent.
pub const MAX_ACCOUNTS: usize = 65_536;

pub trait AccountStore {
    // what it means
    ghost store: { Self → Store };

    fn stands(&self, number: u32) -> bool
        ensures { (if result then 1 else 0) ≡ standing (store self.now) number };

    // A free balance: 0 for an absent account or an asset above 7.
    fn balance(&self, number: u32, asset: u8) -> u64
        ensures { result ≡ balance_at (store self.now) number asset };

    // The highest sequence number used: 0 for an absent account.
    fn floor(&self, number: u32) -> u32
        ensures { result ≡ floor_at (store self.now) number };

    // How many accounts stand.
    fn count(&self) -> u32
        ensures { result ≡ length (store self.now).accounts };

    // How many may stand.
    fn capacity(&self) -> u32
        ensures { result ≡ (store self.now).capacity };

    // The highest number that an account may have.
    fn top(&self) -> u32
        ensures { result ≡ (store self.now).top };

    // The sum of all balances of one asset.
    fn total(&self, asset: u8) -> u64
        ensures { result ≡ free_of (store self.now) asset };

    // The lowest standing number above a given one.
    fn next(&self, number: u32) -> Option<u32>
        ensures { told (λ n. n ∷ []) result ≡ above name (store self.now).accounts (number ∷ []) };

    // Opens an account with floor and balances 0. Refuses with 27, 28 or 29.
    fn open(&mut self, number: u32) -> Result<(), Fault>
        ensures answer { result ≡ open_answer (store self.old) number }
        ensures after { MatchResult result (λ _. Opened (store self.old) number (store self.new)) (λ _. store self.new ≡ store self.old) };

    // Replaces one balance. Refuses with 30 or 31.
    fn set_balance(&mut self, number: u32, asset: u8, value: u64) -> Result<(), Fault>
        ensures answer { result ≡ balance_answer (store self.old) number asset value }
        ensures after { MatchResult result (λ _. BalanceSet (store self.old) number asset value (store self.new)) (λ _. store self.new ≡ store self.old) };

    // Replaces the floor. Refuses with 30.
    fn set_floor(&mut self, number: u32, value: u32) -> Result<(), Fault>
        ensures answer { result ≡ floor_answer (store self.old) number }
        ensures after { MatchResult result (λ _. FloorSet (store self.old) number value (store self.new)) (λ _. store self.new ≡ store self.old) };

    // The accounts stand in order and in range, and no more of them than there is room for.
    ghost sound: { (s : Self) → sound_store (store s) ≡ true };
}

// An account as it is opened: its floor and its balances are 0.
pub fn new_account(number: u32) -> Account
    ensures { result ≡ record { number = number; floor = 0; balances = replicate 8 0 } }
{
    Account {
        number,
        ..Account::default()
    }
}

// The eight free balances of an account, by rising asset: 0 for an absent account.
pub fn balances<S: AccountStore>(store: &S, number: u32) -> [u64; 8]
    ensures { result ≡ map (balance_at (S.store store.now) number) (0 ∷ 1 ∷ 2 ∷ 3 ∷ 4 ∷ 5 ∷ 6 ∷ 7 ∷ []) }
{
    ASSETS.map(move |asset| store.balance(number, asset))
}

// Opens an account with these balances. Refuses with 31 where one is out of range, else as `open` does, and never
// otherwise; then nothing has changed.
pub fn open_with<S: AccountStore>(
    store: &mut S,
    number: u32,
    balances: [u64; 8],
) -> Result<(), Fault>
    ensures answer { result ≡ grant_answer (S.store store.old) number balances }
    ensures after { MatchResult result (λ _. Granted (S.store store.old) number balances (S.store store.new)) (λ _. S.store store.new ≡ S.store store.old) }
{
    if !are_balances(&balances) {
        return Err(Cause::BadOperand.into());
    }
    store.open(number)?;
    for (asset, balance) in balances.iter().enumerate() {
        store.set_balance(number, asset as u8, *balance)?;
    }
    Ok(())
}
