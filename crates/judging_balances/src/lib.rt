// What a block's payments, new offers and cancelled offers come to for each balance, and that no balance falls below zero
// by it, all taken together: what the block pays for sold offers is not in it, and the order of the transactions does not
// matter. Assumes nothing: of more than 1,024 transactions, as no readable block has, the test refuses with fault 6.
#![tactic(auto)]

ghost use Rattle.std.specs.Prelude.{◌≡◌, ℕ, ◌+◌, ◌<◌, ◌≤◌, ◌&&◌, List, [], length, Err, MatchResult, nat_lt};
ghost use Rattle.std.specs.List.{flat_map};
ghost use Rattle.terms.specs.Holdings.{balance_at, amount_at};
ghost use Rattle.exchange.specs.Faults.{fault};
ghost use Rattle.exchange.specs.Faults.Cause.{overdrawn};
ghost use Rattle.tally.specs.Tally.{Tallied};
ghost use Rattle.judging_rules.specs.Rows.{Row, scene, bundle};
ghost use Rattle.judging_balances.specs.Moves.{moves, slot_words};

use accounts::AccountStore;
use offers::OfferBook;
use ordered::SortKey;
use tally::{Effect, Gather, Ledger, Net, Place, Placed, Rule, report};
use terms::{Action, Cause, Fault, Key, Transaction};

// An account's balance of an asset.
#[derive(Clone, Copy, PartialEq, Eq, PartialOrd, Ord, Default)]
pub struct Slot {
    pub account: u32,
    pub asset: u8,
}

impl SortKey for Slot {
    ghost rank = { slot_words };

    fn precedes(self, other: Slot) -> bool {
        self < other
    }
}

impl Placed for Slot {
    ghost first = { λ s. s.account };

    ghost second = { λ s. s.asset };

    fn place(&self) -> Place {
        Place {
            first: self.account as u64,
            second: self.asset as u64,
        }
    }
}

// What transactions move on the balances. Cancelled offers bring what they stand at in the book.
#[derive(Drop)]
struct Moves<'a, B> {
    book: &'a B,
}

impl<'a, B: OfferBook> Gather<Transaction, Slot> for Moves<'a, B> {
    ghost gives = { λ m t. moves (amount_at (B.book m.book.now).offers) t };

    fn parts(&self, t: Transaction) -> (Option<Effect<Slot>>, Option<Effect<Slot>>) {
        let own = |asset| Slot {
            account: t.source,
            asset,
        };
        match t.action {
            Action::Create { .. } => (None, None),
            Action::Pay {
                receiver,
                asset,
                amount,
            } => {
                let theirs = Slot {
                    account: receiver,
                    asset,
                };
                (
                    Some(Effect::goes(own(asset), amount)),
                    Some(Effect::comes(theirs, amount)),
                )
            }
            Action::Place { sold, amount, .. } => (Some(Effect::goes(own(sold), amount)), None),
            Action::Cancel {
                sold,
                bought,
                limit,
                offer,
            } => {
                let key = Key {
                    sold,
                    bought,
                    limit,
                    account: t.source,
                    sequence: offer,
                };
                let amount = self.book.amount(key);
                (Some(Effect::comes(own(sold), amount)), None)
            }
        }
    }
}

// What comes to each balance and what goes from it by the transactions, by rising account and asset. Of more than 1,024
// transactions it refuses with fault 6. The ledger is memory to work in.
pub fn nets<'l, B: OfferBook>(
    ledger: &'l mut Ledger<Slot>,
    book: &B,
    transactions: &[Transaction],
) -> Result<&'l [Net<Slot>], Fault>
    ensures { MatchResult result (λ ns. (length transactions.now ≤ 1024) × Tallied slot_words (flat_map (moves (amount_at (B.book book.now).offers)) transactions.now) ns.now × (length ns.now ≤ 2048)) (λ f. (1024 < length transactions.now) × (f ≡ fault 6 0 0)) }
{
    ledger.sums(&Moves { book }, transactions)
}

// The balance and what comes in cover what goes out.
#[derive(Drop)]
struct Covered<'a, S> {
    store: &'a S,
}

impl<'a, S: AccountStore> Rule<Net<Slot>> for Covered<'a, S> {
    ghost broken = { λ r n. nat_lt n.key.asset 8 && nat_lt (balance_at (S.store r.store.now) n.key.account n.key.asset + n.plus) n.minus };

    fn breaks(&self, net: Net<Slot>) -> bool {
        let free = self.store.balance(net.key.account, net.key.asset) as u128;
        net.key.asset < 8 && free.saturating_add(net.plus) < net.minus
    }
}

// Each account's balance of each asset, with its net, is not below zero.
pub fn balances_covered<S: AccountStore, B: OfferBook>(
    store: &S,
    book: &B,
    transactions: &[Transaction],
) -> Result<(), Fault>
    ensures row { length transactions.now ≤ 1024 → Row (scene (S.store store.now) (B.book book.now) 0 []) (bundle transactions.now) overdrawn result }
    ensures many { 1024 < length transactions.now → result ≡ Err (fault 6 0 0) }
{
    let mut ledger = Ledger::new();
    let entries = nets(&mut ledger, book, transactions)?;
    report(&Covered { store }, Cause::Overdrawn as u8, entries)
}
