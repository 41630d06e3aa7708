// The plain records of the exchange, shared by code and definitions: accounts, offers, transactions, volumes,
// founding grants, faults and their causes. Assumes nothing. The ranges of their numbers stand in specs/Ranges.antt.
#![tactic(auto)]

mod asked;
mod causes;
mod ranges;
mod text;

pub use causes::{Cause, UnknownCause, fault_at, refusal};
pub use ranges::{ASSETS, MAX_AMOUNT, MAX_BALANCE, are_balances, is_amount, is_pair};
pub use text::Hex;

// What is kept of an account: its number, the highest sequence number that it has used, and its eight free balances.
#[derive(Clone, Copy, PartialEq, Eq, Debug, Default)]
pub struct Account {
    pub number: u32,
    pub floor: u32,
    pub balances: [u64; 8],
}

// The key of an offer. Keys are compared field by field, in this order; the first two are the offer's pair.
// The limit counts 65,536ths of the bought asset that are wanted, at least, for each unit sold.
#[derive(Clone, Copy, PartialEq, Eq, PartialOrd, Ord, Debug, Default)]
pub struct Key {
    pub sold: u8,
    pub bought: u8,
    pub limit: u32,
    pub account: u32,
    pub sequence: u32,
}

// An offer: so many units of the key's sold asset.
#[derive(Clone, Copy, PartialEq, Eq, Debug, Default)]
pub struct Offer {
    pub key: Key,
    pub amount: u64,
}

// What a block sells of one pair: so many units of the sold asset, for the bought asset.
#[derive(Clone, Copy, PartialEq, Eq, Debug, Default)]
pub struct Volume {
    pub sold: u8,
    pub bought: u8,
    pub amount: u64,
}

// What a transaction asks for.
#[derive(Clone, Copy, PartialEq, Eq, PartialOrd, Ord, Debug)]
pub enum Action {
    // opens an account
    Create {
        account: u32,
    },
    // pays from the source to the receiver
    Pay {
        receiver: u32,
        asset: u8,
        amount: u64,
    },
    // offers an amount of the sold asset; the offer's key has the source and the sequence number of the transaction
    Place {
        sold: u8,
        bought: u8,
        limit: u32,
        amount: u64,
    },
    // takes back the source's offer that was placed under this sequence number
    Cancel {
        sold: u8,
        bought: u8,
        limit: u32,
        offer: u32,
    },
}

// Nothing in particular: memory for actions is filled with it.
impl Default for Action {
    ghost use Rattle.std.specs.Prelude.{◌≡◌};
    ghost use Rattle.terms.specs.declared.Action.TheVariants.{Create};

    ghost is_default = { λ a. a ≡ Create 0 };

    fn default() -> Action {
        Action::Create { account: 0 }
    }
}

// A transaction: the account that it comes from, that account's sequence number, and what it asks for.
#[derive(Clone, Copy, PartialEq, Eq, PartialOrd, Ord, Debug, Default)]
pub struct Transaction {
    pub source: u32,
    pub sequence: u32,
    pub action: Action,
}

// What a founding gives to one account.
#[derive(Clone, Copy, PartialEq, Eq, PartialOrd, Ord, Debug, Default)]
pub struct Grant {
    pub account: u32,
    pub balances: [u64; 8],
}

// A refusal: its number and two places, which are 0 unless the rule gives them. It is printed, compared and published by
// its number; `Cause` names the numbers.
#[derive(Clone, Copy, PartialEq, Eq, Debug)]
pub struct Fault {
    pub number: u8,
    pub first: u64,
    pub second: u64,
}
