// What may come to a replica, and what it answers.
ghost use Rattle.std.specs.Prelude.{◌≡◌};
ghost use Rattle.lives.specs.declared.events.Stop.TheVariants.{NoMemory};
ghost use Rattle.exchange.specs.Life.Answer.{done};
ghost use Rattle.lives.specs.Events.{answer_of, spoken};

use asking::{Question, Reply};
use std::alloc::AllocFailed;
use terms::{Fault, Key};

// An event. A checked block goes by the number of checks that had passed before its own.
#[derive(Clone, Copy)]
pub enum Event<'a> {
    Found(&'a [u8]),
    Check(&'a [u8]),
    Fill(usize, Key),
    Commit(usize),
    Reject(usize),
    Ask(Question),
}

// What an event is answered: done, refused with a fault, checked under a number, sold and paid, or a reply.
#[derive(Clone, Copy, PartialEq, Eq, Debug)]
pub enum Answer {
    Done,
    Refused(Fault),
    Checked(usize),
    Filled(u64, u64),
    Told(Reply),
}

// Why a run stopped before all events were answered: the next one names a checked block that is not held; or there was no
// memory to go on.
#[derive(Clone, Copy, PartialEq, Eq, Debug)]
pub enum Stop {
    NotHeld,
    NoMemory,
}

impl<T: Drop> From<AllocFailed<T>> for Stop {
    ghost from_gives = { λ _ stop. stop ≡ NoMemory };

    fn from(_: AllocFailed<T>) -> Self {
        Stop::NoMemory
    }
}

// What a call that gives nothing back answers.
impl From<Result<(), Fault>> for Answer {
    ghost from_gives = { λ outcome answer. answer_of answer ≡ spoken done outcome };

    fn from(outcome: Result<(), Fault>) -> Self {
        match outcome {
            Ok(()) => Answer::Done,
            Err(fault) => Answer::Refused(fault),
        }
    }
}
