// One command in one line: its byte place, its letter, and its operands by name. What is sold and what is bought is said in full.
use commands::{Command, eight_balances};
use std::fmt;
use terms::Hex;

// The balances of a grant that are not 0.
#[derive(Clone, Copy)]
struct Balances([u64; 8]);

impl fmt::Display for Balances {
    fn fmt<W: fmt::Write>(&self, f: &mut fmt::Formatter<W>) -> fmt::Result {
        let balances = self.0;
        if balances.iter().all(|balance| *balance == 0) {
            return write!(f, " nothing");
        }
        let given = balances.iter().enumerate().filter(|(_, b)| **b > 0);
        for (i, (asset, balance)) in given.enumerate() {
            let comma = if i == 0 { "" } else { "," };
            write!(f, "{comma} {balance} of asset {asset}")?;
        }
        Ok(())
    }
}

// The account that a transaction comes from, and its sequence number.
#[derive(Clone, Copy)]
struct Source(u32, u32);

impl fmt::Display for Source {
    fn fmt<W: fmt::Write>(&self, f: &mut fmt::Formatter<W>) -> fmt::Result {
        let Source(account, sequence) = *self;
        write!(f, "account {account}, sequence {sequence}")
    }
}

// What an offer is made for: the asset that it buys, and how much of it at least for each unit.
#[derive(Clone, Copy)]
struct Limit {
    limit: u32,
    bought: u8,
}

impl fmt::Display for Limit {
    fn fmt<W: fmt::Write>(&self, f: &mut fmt::Formatter<W>) -> fmt::Result {
        let Limit { limit, bought } = *self;
        write!(
            f,
            "for asset {bought}, at least {limit}/65536 of asset {bought} for each unit"
        )
    }
}

// A command and the place of its letter.
#[derive(Clone, Copy)]
pub struct Line<'a> {
    pub place: usize,
    pub command: Command<'a>,
}

impl<'a> fmt::Display for Line<'a> {
    fn fmt<W: fmt::Write>(&self, f: &mut fmt::Formatter<W>) -> fmt::Result {
        let place = self.place;
        write!(f, "{place:>6} ")?;
        match self.command {
            Command::Begin { height, parent } => write!(
                f,
                "B begins the block of height {height}, on the state with digest {}",
                Hex(parent)
            ),
            Command::Price { asset, price } => write!(f, "P asset {asset} has price {price}"),
            Command::Volume {
                sold,
                bought,
                amount,
            } => write!(
                f,
                "V the block sells {amount} of asset {sold} for asset {bought}"
            ),
            Command::Create {
                source,
                sequence,
                account,
            } => write!(f, "A {}: opens account {account}", Source(source, sequence)),
            Command::Pay {
                source,
                sequence,
                receiver,
                asset,
                amount,
                memo,
            } => write!(
                f,
                "T {}: pays {amount} of asset {asset} to account {receiver}, memo {}",
                Source(source, sequence),
                Hex(memo)
            ),
            Command::Place {
                source,
                sequence,
                sold,
                bought,
                limit,
                amount,
            } => write!(
                f,
                "O {}: sells {amount} of asset {sold} {}",
                Source(source, sequence),
                Limit { limit, bought }
            ),
            Command::Cancel {
                source,
                sequence,
                sold,
                bought,
                limit,
                offer,
            } => write!(
                f,
                "C {}: cancels its offer of sequence {offer}, which sells asset {sold} {}",
                Source(source, sequence),
                Limit { limit, bought }
            ),
            Command::Found { account, balances } => write!(
                f,
                "G account {account} gets{}",
                Balances(eight_balances(balances))
            ),
            Command::End => write!(f, "E ends"),
        }
    }
}
