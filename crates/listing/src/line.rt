// The lines of a listing, and how each is written: a letter and numbers in decimal with one space between.
ghost use Rattle.std.specs.Prelude.{◌≡◌};
ghost use Rattle.listing.specs.Lines.{line_of};

use std::fmt;
use terms::{Account, Fault, Hex, Offer};

#[derive(Clone, Copy)]
pub enum Line {
    // K: founded, or committed; the height after it
    Done(u32),
    // N: refused with this fault
    Refused(Fault),
    // R: the remainders of assets 0 to 7
    Remainders([u64; 8]),
    // A: an account, with its floor and its balances
    Account(Account),
    // O: an offer
    Offer(Offer),
    // D: the digest
    Digest([u8; 32]),
    // C: how many checks passed, and what became of the blocks
    Counts {
        passed: u32,
        committed: u32,
        lapsed: u32,
        rejected: u32,
    },
}

// Eight amounts, with a space before each, as this listing has them.
#[derive(Clone, Copy)]
struct Amounts([u64; 8]);

impl fmt::Display for Amounts {
    fn fmt<W: fmt::Write>(&self, f: &mut fmt::Formatter<W>) -> fmt::Result {
        for amount in self.0 {
            write!(f, " {amount}")?;
        }
        Ok(())
    }
}

// What came of a piece of the stream: the height after it, or its fault.
impl From<Result<u32, Fault>> for Line {
    ghost from_gives = { λ outcome line. line ≡ line_of outcome };

    fn from(outcome: Result<u32, Fault>) -> Self {
        match outcome {
            Ok(height) => Line::Done(height),
            Err(fault) => Line::Refused(fault),
        }
    }
}

impl fmt::Display for Line {
    fn fmt<W: fmt::Write>(&self, f: &mut fmt::Formatter<W>) -> fmt::Result {
        match self {
            Line::Done(height) => write!(f, "K {height}"),
            Line::Refused(fault) => write!(f, "N {fault}"),
            Line::Remainders(amounts) => write!(f, "R{}", Amounts(*amounts)),
            Line::Account(account) => {
                let balances = account.balances;
                write!(
                    f,
                    "A {} {}{}",
                    account.number,
                    account.floor,
                    Amounts(balances)
                )
            }
            Line::Offer(offer) => write!(f, "O {offer}"),
            Line::Digest(bytes) => write!(f, "D {}", Hex(bytes)),
            Line::Counts {
                passed,
                committed,
                lapsed,
                rejected,
            } => write!(f, "C {passed} {committed} {lapsed} {rejected}"),
        }
    }
}
