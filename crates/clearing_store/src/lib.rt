// The store's part of clearing a block: the nets of payments, new and cancelled offers reach the balances, floors rise
// to the sequence numbers used, and new accounts open.
// Assumes nothing: where a change can't be made, the refusal is handed on, and the rest is left undone. Each step is a loop of
// its own: of a closure that changes the store, a proof would not know what it leaves.
#![tactic(auto)]

ghost use Rattle.std.specs.Prelude.{◌≡◌, [], ◌∷◌, if◌then◌else◌, Some, None};
ghost use Rattle.std.specs.List.{flat_map};
ghost use Rattle.terms.specs.Ranges.{is_balance};
ghost use Rattle.exchange.specs.Trade.{created};
ghost use Rattle.clearing_store.specs.Changes.{moved_to, AppliedOr, RaisedOr, OpenedOr};

use accounts::AccountStore;
use judging_balances::Slot;
use tally::Net;
use terms::{Cause, Fault, MAX_BALANCE, Transaction};

// A number as a balance, where it is in range.
fn as_balance(value: u128) -> Option<u64>
    ensures { result ≡ (if is_balance value then Some value else None) }
{
    if value <= MAX_BALANCE as u128 {
        Some(value as u64)
    } else {
        None
    }
}

// A balance with what comes in and without what goes out, where that is a balance.
fn moved(had: u64, plus: u128, minus: u128) -> Option<u64>
    ensures { result ≡ moved_to had plus minus }
{
    let had = had as u128;
    let value = if plus >= minus {
        had.checked_add(plus - minus)?
    } else {
        had.checked_sub(minus - plus)?
    };
    as_balance(value)
}

// Brings one net to its balance. A net that changes nothing is passed over.
fn apply<S: AccountStore>(store: &mut S, net: Net<Slot>) -> Result<(), Fault>
    ensures { AppliedOr (net ∷ []) (S.store store.old) (S.store store.new) result }
{
    if net.plus == net.minus {
        return Ok(());
    }
    let had = store.balance(net.key.account, net.key.asset);
    let Some(value) = moved(had, net.plus, net.minus) else {
        return Err(Cause::BadOperand.into());
    };
    store.set_balance(net.key.account, net.key.asset, value)
}

// Brings all nets to their balances. Refuses only where an account does not stand or a new balance is out of range.
pub fn apply_nets<S: AccountStore>(store: &mut S, nets: &[Net<Slot>]) -> Result<(), Fault>
    ensures { AppliedOr nets.now (S.store store.old) (S.store store.new) result }
{
    for net in nets {
        apply(store, *net)?;
    }
    Ok(())
}

// Raises the floor of a transaction's source to its sequence number, where that is above it.
fn raise<S: AccountStore>(store: &mut S, t: Transaction) -> Result<(), Fault>
    ensures { RaisedOr (t ∷ []) (S.store store.old) (S.store store.new) result }
{
    let floor = store.floor(t.source);
    if floor < t.sequence {
        return store.set_floor(t.source, t.sequence);
    }
    Ok(())
}

// Raises the floor of each source to the highest number that it used. Refuses only where a source does not stand.
pub fn raise_floors<S: AccountStore>(
    store: &mut S,
    transactions: &[Transaction],
) -> Result<(), Fault>
    ensures { RaisedOr transactions.now (S.store store.old) (S.store store.new) result }
{
    for t in transactions {
        raise(store, *t)?;
    }
    Ok(())
}

// Opens the account that a transaction creates, if it creates one.
fn open<S: AccountStore>(store: &mut S, t: Transaction) -> Result<(), Fault>
    ensures { OpenedOr (created t) (S.store store.old) (S.store store.new) result }
{
    match t.created() {
        Some(account) => store.open(account),
        None => Ok(()),
    }
}

// Opens all new accounts. Refuses only where one stands, is created twice or is out of range, or where they are too many.
pub fn open_accounts<S: AccountStore>(
    store: &mut S,
    transactions: &[Transaction],
) -> Result<(), Fault>
    ensures { OpenedOr (flat_map created transactions.now) (S.store store.old) (S.store store.new) result }
{
    for t in transactions {
        open(store, *t)?;
    }
    Ok(())
}
