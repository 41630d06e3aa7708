// The lines that say what a replica holds: its remainders, its accounts by rising number, its offers by rising key, its
// digest, and its counts.
ghost use Rattle.std.specs.Prelude.{◌≡◌, ◌++◌, true, length, OnOk};
ghost use Rattle.std.specs.List.{ContainsAt as Has};
ghost use Rattle.terms.specs.declared.Account.{Account};
ghost use Rattle.terms.specs.Holdings.{sound_store, sound_book};
ghost use Rattle.listing.specs.Lines.{account_lines, offer_lines, state_lines, counts_line};

use crate::line::Line;
use accounts::AccountStore;
use offers::OfferBook;
use replica::Replica;
use std::alloc::AllocError;
use terms::{ASSETS, Account, Key, Offer};

// The eight remainders.
fn remainders<S: AccountStore, B: OfferBook>(replica: &Replica<S, B>) -> [u64; 8]
    ensures { length replica.now.own.remainders ≡ 8 → result ≡ replica.now.own.remainders }
{
    ASSETS.map(|asset| replica.remainder(asset))
}

// An account that stands: its number, its floor and its balances.
fn account<S: AccountStore, B: OfferBook>(replica: &Replica<S, B>, number: u32) -> Account
    requires { sound_store replica.now.store ≡ true }
    ensures { (a : Account) → Has replica.now.store.accounts a → a.number ≡ number → result ≡ a }
{
    Account {
        number,
        floor: replica.floor(number),
        balances: replica.balances(number),
    }
}

// Adds a line for each account, by rising number. A replica lends no list: each step asks for the next.
fn push_accounts<S: AccountStore, B: OfferBook>(
    replica: &Replica<S, B>,
    lines: &mut Vec<Line>,
) -> Result<(), AllocError>
    requires { sound_store replica.now.store ≡ true }
    ensures { OnOk result (lines.new.items ≡ lines.old.items ++ account_lines replica.now.store) }
{
    let mut at = 0;
    while let Some(number) = replica.next_account(at) {
        lines.push(Line::Account(account(replica, number)))?;
        at = number;
    }
    Ok(())
}

// Adds a line for each offer, by rising key. A replica lends no list: each step asks for the next.
fn push_offers<S: AccountStore, B: OfferBook>(
    replica: &Replica<S, B>,
    lines: &mut Vec<Line>,
) -> Result<(), AllocError>
    requires { sound_book replica.now.book ≡ true }
    ensures { OnOk result (lines.new.items ≡ lines.old.items ++ offer_lines replica.now.book) }
{
    let mut at = Key::default();
    while let Some(key) = replica.next_offer(at) {
        let amount = replica.amount(key);
        lines.push(Line::Offer(Offer { key, amount }))?;
        at = key;
    }
    Ok(())
}

// Adds the lines of all that a founded replica holds.
pub(crate) fn push_state<S: AccountStore, B: OfferBook>(
    replica: &Replica<S, B>,
    lines: &mut Vec<Line>,
) -> Result<(), AllocError>
    ensures { replica.now.founded ≡ true → OnOk result (lines.new.items ≡ lines.old.items ++ state_lines replica.now) }
{
    let digest = replica.digest();
    lines.push(Line::Remainders(remainders(replica)))?;
    push_accounts(replica, lines)?;
    push_offers(replica, lines)?;
    lines.push(Line::Digest(digest))?;
    Ok(())
}

// How many checks passed, and what became of the blocks.
pub(crate) fn counts<S: AccountStore, B: OfferBook>(replica: &Replica<S, B>) -> Line
    ensures { result ≡ counts_line replica.now }
{
    Line::Counts {
        passed: replica.passed(),
        committed: replica.committed(),
        lapsed: replica.lapsed(),
        rejected: replica.rejected(),
    }
}
