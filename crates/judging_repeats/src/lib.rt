// What may stand only once in a block: a source with a sequence number, a new account, a cancelled offer. Each is
// counted by sorting. Assumes nothing: of more than 1,024 transactions, as no readable block has, each test refuses
// with fault 6; otherwise it tells the least place at which its rule is broken.
#![tactic(auto)]

ghost use Rattle.std.specs.Prelude.{◌≡◌, ℕ, ◌+◌, ◌<◌, ◌≤◌, List, [], ◌∷◌, length, Err, nat_lt};
ghost use Rattle.terms.specs.Order.{words, Rising, under};
ghost use Rattle.exchange.specs.Trade.{created, cancelled};
ghost use Rattle.exchange.specs.Faults.{fault};
ghost use Rattle.exchange.specs.Faults.Cause.{repeated, bad_account, cancelled_twice};
ghost use Rattle.judging_rules.specs.Rows.{Row, scene, no_store, no_book, bundle, any};
ghost use Rattle.judging_repeats.specs.Counts.{ones, tagged, is_bad};

use accounts::AccountStore;
use tally::{Effect, Gather, Ledger, Net, Place, Placed, Rule, look_up, report};
use terms::{Cause, Fault, Key, Transaction};

#[derive(Drop)]
struct Tags;

impl Gather<Transaction, Place> for Tags {
    ghost gives = { λ _ t. ones (tagged t) };

    fn parts(&self, t: Transaction) -> (Option<Effect<Place>>, Option<Effect<Place>>) {
        (Some(Effect::comes(t.place(), 1)), None)
    }
}

#[derive(Drop)]
struct Single;

impl Rule<Net<Place>> for Single {
    ghost broken = { λ _ n. nat_lt 1 n.plus };

    fn breaks(&self, net: Net<Place>) -> bool {
        net.plus > 1
    }
}

// No source and sequence number occur twice.
pub fn tags_differ(transactions: &[Transaction]) -> Result<(), Fault>
    ensures row { length transactions.now ≤ 1024 → Row (scene no_store no_book 0 []) (bundle transactions.now) repeated result }
    ensures many { 1024 < length transactions.now → result ≡ Err (fault 6 0 0) }
{
    let mut ledger = Ledger::new();
    let nets = ledger.sums(&Tags, transactions)?;
    report(&Single, Cause::Repeated as u8, nets)
}

#[derive(Drop)]
struct Openings;

impl Gather<Transaction, u32> for Openings {
    ghost gives = { λ _ t. ones (created t) };

    fn parts(&self, t: Transaction) -> (Option<Effect<u32>>, Option<Effect<u32>>) {
        (t.created().map(|account| Effect::comes(account, 1)), None)
    }
}

// Whether a new account stands, is above the top, or is opened more than once, where the nets are in order.
fn is_bad<S: AccountStore>(store: &S, nets: &[Net<u32>], account: u32) -> bool
    ensures { Rising (λ x. x.key ∷ []) nets.now → result ≡ is_bad (S.store store.now) nets.now account }
{
    store.stands(account) || account > store.top() || look_up(nets, account).plus > 1
}

// A new account does not stand, is not above the top, and is opened once. Leans on the nets being in order.
#[derive(Drop)]
struct Fresh<'a, S> {
    store: &'a S,
    nets: &'a [Net<u32>],
}

impl<'a, S: AccountStore> Rule<Transaction> for Fresh<'a, S> {
    ghost broken = { λ r t. any (is_bad (S.store r.store.now) r.nets.now) (created t) };

    ghost ready = { λ r. Rising (λ x. x.key ∷ []) r.nets.now };

    fn breaks(&self, t: Transaction) -> bool {
        t.created()
            .is_some_and(|account| is_bad(self.store, self.nets, account))
    }
}

// Each new account does not stand, is not above the top and is in one creation only.
pub fn openings_good<S: AccountStore>(store: &S, transactions: &[Transaction]) -> Result<(), Fault>
    ensures row { length transactions.now ≤ 1024 → Row (scene (S.store store.now) no_book 0 []) (bundle transactions.now) bad_account result }
    ensures many { 1024 < length transactions.now → result ≡ Err (fault 6 0 0) }
{
    let mut ledger = Ledger::new();
    let nets = ledger.sums(&Openings, transactions)?;
    report(
        &Fresh { store, nets },
        Cause::BadAccount as u8,
        transactions,
    )
}

#[derive(Drop)]
struct Cancellations;

impl Gather<Transaction, Key> for Cancellations {
    ghost gives = { λ _ t. ones (cancelled t) };

    fn parts(&self, t: Transaction) -> (Option<Effect<Key>>, Option<Effect<Key>>) {
        (t.cancelled().map(|key| Effect::comes(key, 1)), None)
    }
}

// A cancelled offer is cancelled once. Leans on the nets being in order.
#[derive(Drop)]
struct CancelledOnce<'a> {
    nets: &'a [Net<Key>],
}

impl<'a> Rule<Transaction> for CancelledOnce<'a> {
    ghost broken = { λ r t. any (λ k. nat_lt 1 (under (λ x. words x.key) (λ x. x.plus) r.nets.now (words k))) (cancelled t) };

    ghost ready = { λ r. Rising (λ x. words x.key) r.nets.now };

    fn breaks(&self, t: Transaction) -> bool {
        t.cancelled()
            .is_some_and(|key| look_up(self.nets, key).plus > 1)
    }
}

// No offer is in two cancellations.
pub fn cancelled_once(transactions: &[Transaction]) -> Result<(), Fault>
    ensures row { length transactions.now ≤ 1024 → Row (scene no_store no_book 0 []) (bundle transactions.now) cancelled_twice result }
    ensures many { 1024 < length transactions.now → result ≡ Err (fault 6 0 0) }
{
    let mut ledger = Ledger::new();
    let nets = ledger.sums(&Cancellations, transactions)?;
    report(
        &CancelledOnce { nets },
        Cause::CancelledTwice as u8,
        transactions,
    )
}
