// Rules that an entry of a list may break, and the least place at which one is broken. Assumes nothing.
ghost use Rattle.std.specs.Prelude.{◌≡◌, ℕ, Bool};
ghost use Rattle.tally.specs.Least.{Broken, Told, spot, lesser_of, LeastPlace};

use ordered::SortKey;
use terms::{Fault, Transaction, Volume};

// The two numbers by which a fault names a place.
#[derive(Clone, Copy, PartialEq, Eq, PartialOrd, Ord, Default)]
pub struct Place {
    pub first: u64,
    pub second: u64,
}

// Places go by the first number, then the second.
impl SortKey for Place {
    ghost rank = { spot };

    fn precedes(self, other: Place) -> bool {
        self < other
    }
}

// What has a place.
pub trait Placed: Copy {
    ghost first: { Self → ℕ };

    ghost second: { Self → ℕ };

    fn place(&self) -> Place
        ensures { (result.first ≡ first self.now) × (result.second ≡ second self.now) };
}

impl Placed for Place {
    ghost first = { λ p. p.first };

    ghost second = { λ p. p.second };

    fn place(&self) -> Place {
        *self
    }
}

// An asset is named by its number.
impl Placed for u8 {
    ghost first = { λ x. x };

    ghost second = { λ _. 0 };

    fn place(&self) -> Place {
        Place {
            first: *self as u64,
            second: 0,
        }
    }
}

// A transaction is named by its source and its sequence number.
impl Placed for Transaction {
    ghost first = { λ t. t.source };

    ghost second = { λ t. t.sequence };

    fn place(&self) -> Place {
        Place {
            first: self.source as u64,
            second: self.sequence as u64,
        }
    }
}

// A volume is named by its pair.
impl Placed for Volume {
    ghost first = { λ v. v.sold };

    ghost second = { λ v. v.bought };

    fn place(&self) -> Place {
        Place {
            first: self.sold as u64,
            second: self.bought as u64,
        }
    }
}

// A rule on entries: a trait and no closure, since `report` would have to require that a closure may be called. What it
// supposes, if anything, is `ready`, which its caller may know only as a premise of its own clause; where that does not
// hold, the answers mean nothing.
pub trait Rule<X> {
    ghost broken: { Self → X → Bool };

    ghost ready: { Self → Type 0 } = { λ _. Unit {0} };

    fn breaks(&self, x: X) -> bool
        ensures { ready self.now → result ≡ broken self.now x };
}

// The lesser of two places, by the first number, then the second.
fn lesser(best: Option<Place>, p: Place) -> Option<Place>
    ensures { result ≡ lesser_of best p }
{
    Some(best.map_or(p, |b| b.min(p)))
}

// The least place at which the rule is broken, in one pass.
fn least<X: Placed, R: Rule<X>>(rule: &R, xs: &[X]) -> Option<Place>
    ensures { R.Rule.ready rule.now → LeastPlace X.Placed.first X.Placed.second (R.Rule.broken rule.now) xs.now result }
{
    let mut best: Option<Place> = None;
    for x in xs {
        if rule.breaks(*x) {
            best = lesser(best, x.place());
        }
    }
    best
}

// No entry breaks the rule, or the fault has this number and the least place at which one does. Any number may be given.
pub fn report<X: Placed, R: Rule<X>>(rule: &R, number: u8, xs: &[X]) -> Result<(), Fault>
    ensures { R.Rule.ready rule.now → Told (Broken X.Placed.first X.Placed.second (R.Rule.broken rule.now) xs.now) number result }
{
    match least(rule, xs) {
        None => Ok(()),
        Some(p) => Err(Fault {
            number,
            first: p.first,
            second: p.second,
        }),
    }
}
