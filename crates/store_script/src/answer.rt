// What is answered to a command. Assumes nothing.
ghost use Rattle.std.specs.Prelude.{◌≡◌};
ghost use Rattle.store_script.specs.Outcome.{outcome};

use std::fmt;
use terms::{Fault, Key};

#[derive(Clone, Copy, PartialEq, Eq)]
pub enum Answer {
    Done,
    Refused(Fault),
    Flag(bool),
    Number(u64),
    Offer(Key),
    Nothing,
}

// A command that only changes something is done or refused.
impl From<Result<(), Fault>> for Answer {
    ghost from_gives = { λ r answer. answer ≡ outcome r };

    fn from(outcome: Result<(), Fault>) -> Answer {
        match outcome {
            Ok(()) => Answer::Done,
            Err(fault) => Answer::Refused(fault),
        }
    }
}

impl fmt::Display for Answer {
    fn fmt<W: fmt::Write>(&self, f: &mut fmt::Formatter<W>) -> fmt::Result {
        match *self {
            Answer::Done => write!(f, "done"),
            Answer::Refused(fault) => write!(f, "refused {fault}"),
            Answer::Flag(true) => write!(f, "yes"),
            Answer::Flag(false) => write!(f, "no"),
            Answer::Number(n) => write!(f, "{n}"),
            Answer::Offer(key) => write!(f, "{key}"),
            Answer::Nothing => write!(f, "none"),
        }
    }
}
