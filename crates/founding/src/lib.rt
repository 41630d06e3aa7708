// A founding: what its grants are refused for, and the opening of their accounts. Assumes nothing: all that the tests
// lean on is known of every decoded founding. That accounts open without a refusal is told of an empty store and of
// grants in which no fault was found; of any other, nothing is told.
#![tactic(auto)]

ghost use Rattle.std.specs.Prelude.{◌≡◌, ◌<◌, ◌≤◌, length, None, Err, slice_index};
ghost use Rattle.terms.specs.Holdings.{Store};
ghost use Rattle.blocks.specs.Decoded.{grants_of};
ghost use Rattle.exchange.specs.Faults.{fault, Objected, FoundingVerdict};
ghost use Rattle.exchange.specs.Faults.Objection.{bad_grant, too_many_grants, excess_grants};
ghost use Rattle.tally.specs.Least.{Told, fault_of};
ghost use Rattle.founding.specs.Judged.{once, is_bad};
ghost use Rattle.founding.specs.Granting.{GrantedOr};

use accounts::{AccountStore, open_with};
use blocks::DecodedFounding;
use ordered::total;
use tally::{Effect, Gather, Ledger, Net, Place, Rule, report};
use terms::{Cause, Fault, Grant, MAX_BALANCE};

// The accounts that the grants name: each grant counts once, at its account.
#[derive(Drop)]
struct Grantees;

impl Gather<Grant, Place> for Grantees {
    ghost gives = { λ _ g. once g };

    fn parts(&self, grant: Grant) -> (Option<Effect<Place>>, Option<Effect<Place>>) {
        let account = Place {
            first: grant.account as u64,
            second: 0,
        };
        (Some(Effect::comes(account, 1)), None)
    }
}

// An account that a grant names is in no other, and is not above the top.
#[derive(Drop)]
struct Grantable {
    top: u32,
}

impl Rule<Net<Place>> for Grantable {
    ghost broken = { λ r n. is_bad r.top n.key.first n.plus };

    fn breaks(&self, net: Net<Place>) -> bool {
        net.plus > 1 || (net.plus > 0 && net.key.first > self.top as u64)
    }
}

// 15: each account is in one grant, and none is above the top. Of more than 1,024 grants, as no readable founding has,
// it refuses with fault 6.
fn accounts_good<S: AccountStore>(store: &S, grants: &[Grant]) -> Result<(), Fault>
    ensures row { length grants.now ≤ 1024 → Told (Objected (S.store store.now) grants.now bad_grant) 15 result }
    ensures many { 1024 < length grants.now → result ≡ Err (fault 6 0 0) }
{
    let mut ledger = Ledger::new();
    let nets = ledger.sums(&Grantees, grants)?;
    report(
        &Grantable { top: store.top() },
        Cause::BadAccount as u8,
        nets,
    )
}

// 19: there is room for as many accounts as there are grants.
fn accounts_fit<S: AccountStore>(store: &S, grants: &[Grant]) -> Result<(), Fault>
    ensures { Told (Objected (S.store store.now) grants.now too_many_grants) 19 result }
{
    if (store.capacity() as usize) < grants.len() {
        return Err(Cause::AccountsFull.into());
    }
    Ok(())
}

// 23: of no asset is more granted than the largest balance. The number of the asset is asked for and named in the fault.
fn amounts_fit(grants: &[Grant]) -> Result<(), Fault>
    ensures { (st : Store) → Told (Objected st grants.now excess_grants) 23 result }
{
    for asset in 0u8..8 {
        if total(grants, asset) > MAX_BALANCE {
            return Err(Cause::ExcessGrants.at(asset as u64, 0));
        }
    }
    Ok(())
}

// The verdict on a founding over this store: its grants are good, or the answer is their least fault.
pub fn judge_founding<S: AccountStore>(store: &S, founding: &DecodedFounding) -> Result<(), Fault>
    ensures { FoundingVerdict (S.store store.now) (grants_of founding.now) (fault_of result) }
{
    let grants = founding.grants();
    accounts_good(store, grants)?;
    accounts_fit(store, grants)?;
    amounts_fit(grants)
}

// Opens the accounts of all grants, each with its balances. Over an empty store, and where no fault was found in the
// grants, this is never refused.
pub fn grant_all<S: AccountStore>(store: &mut S, founding: &DecodedFounding) -> Result<(), Fault>
    ensures { length (S.store store.old).accounts ≡ 0 → FoundingVerdict (S.store store.old) (grants_of founding.now) None → GrantedOr (S.store store.old) (grants_of founding.now) (S.store store.new) result }
{
    let grants = founding.grants();
    for grant in grants {
        open_with(store, grant.account, grant.balances)?;
    }
    Ok(())
}
