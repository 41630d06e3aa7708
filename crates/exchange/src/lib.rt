// The laws of the exchange and its worked cases. Each function has no other use than that its contract names a law of
// specs/Claims.antt, or the worked cases of specs/Cases.antt, so that the crate is proved only with a proof of it. Assumes nothing.
#![tactic(auto)]

ghost use Rattle.exchange.specs.Cases.{Cases};
ghost use Rattle.exchange.specs.Claims.{OrderFree, OneOutcome, FoundingOrderFree, ReplicasAgree, Conserved, SoundForLife, PayoutsCovered, LimitsKept, CountsAddUp};

// A rearranged block has the same faults and fills, and commits to the same state.
pub fn order_free() -> u8
    ensures { OrderFree }
{
    0
}

// A commit has at most one outcome.
pub fn one_outcome() -> u8
    ensures { OneOutcome }
{
    0
}

// Foundings by the same grants in any order are refused alike and found alike.
pub fn founding_order_free() -> u8
    ensures { FoundingOrderFree }
{
    0
}

// Two replicas to which the same events come, but for the order of transactions and grants, give equal answers and stay equal.
pub fn replicas_agree() -> u8
    ensures { ReplicasAgree }
{
    0
}

// Of each asset, free balances, offered amounts and remainder add up to what was founded, after every event.
pub fn conserved() -> u8
    ensures { Conserved }
{
    0
}

// In every life all numbers keep their ranges, and accounts and offers have room.
pub fn sound_for_life() -> u8
    ensures { SoundForLife }
{
    0
}

// A block without fault pays no more of an asset than it sells of it.
pub fn payouts_covered() -> u8
    ensures { PayoutsCovered }
{
    0
}

// A filled offer is paid by its limit, and each eligible offer of its pair with a lower key is sold whole.
pub fn limits_kept() -> u8
    ensures { LimitsKept }
{
    0
}

// Each check that passed is committed, lapsed, rejected or held.
pub fn counts_add_up() -> u8
    ensures { CountsAddUp }
{
    0
}

// The worked cases, as one statement.
pub fn worked_cases() -> u8
    ensures { Cases }
{
    0
}
