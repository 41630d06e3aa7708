// The causes of refusals by name, and the faults that name them by number. Assumes nothing.
ghost use Rattle.std.specs.Prelude.{◌≡◌, MatchResult};
ghost use Rattle.terms.specs.Causes.{number_of, fault_of, NoCause};

use crate::Fault;

// Why something is refused. Each cause has the number by which a fault is printed and compared.
#[derive(Clone, Copy, PartialEq, Eq, Debug)]
pub enum Cause {
    // of bytes
    TooManyBytes = 1,
    Unfinished = 2,
    NoCommand = 3,
    OutOfTurn = 4,
    OutOfRange = 5,
    TooManyTransactions = 6,
    BytesAfterEnd = 7,
    // of a block against a replica
    WrongHeight = 8,
    WrongParent = 9,
    Uncleared = 10,
    NoSource = 11,
    OutOfWindow = 12,
    Repeated = 13,
    NoReceiver = 14,
    BadAccount = 15,
    NoOffer = 16,
    CancelledTwice = 17,
    Overdrawn = 18,
    AccountsFull = 19,
    OffersFull = 20,
    ExcessVolume = 21,
    // of a replica's calls
    NotEmpty = 22,
    ExcessGrants = 23,
    NotFounded = 24,
    FoundedAlready = 25,
    ChecksUsedUp = 26,
    // of account stores and offer books
    NoSuchAccount = 27,
    StandsAlready = 28,
    NoRoom = 29,
    Absent = 30,
    BadOperand = 31,
}

// A fault by its number, whose places are 0.
pub fn refusal(number: u8) -> Fault
    ensures { result ≡ record { number = number; first = 0; second = 0 } }
{
    Fault {
        number,
        first: 0,
        second: 0,
    }
}

// A fault by its number, at a byte place.
pub fn fault_at(number: u8, at: usize) -> Fault
    ensures { result ≡ record { number = number; first = at; second = 0 } }
{
    Fault {
        number,
        first: at as u64,
        second: 0,
    }
}

impl Cause {
    // The fault of this cause at a place.
    pub fn at(self, first: u64, second: u64) -> Fault
        ensures { result ≡ record { number = number_of self; first = first; second = second } }
    {
        Fault {
            number: self as u8,
            first,
            second,
        }
    }

    // The fault of this cause at a byte place.
    pub fn at_byte(self, at: usize) -> Fault
        ensures { result ≡ record { number = number_of self; first = at; second = 0 } }
    {
        fault_at(self as u8, at)
    }
}

// The fault of a cause that has no place.
impl From<Cause> for Fault {
    ghost from_gives = { λ cause fault. fault ≡ fault_of cause };

    fn from(cause: Cause) -> Fault {
        refusal(cause as u8)
    }
}

// A number that is no cause's.
#[derive(Clone, Copy, PartialEq, Eq, Debug)]
pub struct UnknownCause(pub u8);

impl TryFrom<u8> for Cause {
    type Error = UnknownCause;

    ghost try_from_gives = { λ number r. MatchResult r (λ cause. number_of cause ≡ number) (λ _. NoCause number) };

    fn try_from(number: u8) -> Result<Self, UnknownCause> {
        match number {
            1 => Ok(Cause::TooManyBytes),
            2 => Ok(Cause::Unfinished),
            3 => Ok(Cause::NoCommand),
            4 => Ok(Cause::OutOfTurn),
            5 => Ok(Cause::OutOfRange),
            6 => Ok(Cause::TooManyTransactions),
            7 => Ok(Cause::BytesAfterEnd),
            8 => Ok(Cause::WrongHeight),
            9 => Ok(Cause::WrongParent),
            10 => Ok(Cause::Uncleared),
            11 => Ok(Cause::NoSource),
            12 => Ok(Cause::OutOfWindow),
            13 => Ok(Cause::Repeated),
            14 => Ok(Cause::NoReceiver),
            15 => Ok(Cause::BadAccount),
            16 => Ok(Cause::NoOffer),
            17 => Ok(Cause::CancelledTwice),
            18 => Ok(Cause::Overdrawn),
            19 => Ok(Cause::AccountsFull),
            20 => Ok(Cause::OffersFull),
            21 => Ok(Cause::ExcessVolume),
            22 => Ok(Cause::NotEmpty),
            23 => Ok(Cause::ExcessGrants),
            24 => Ok(Cause::NotFounded),
            25 => Ok(Cause::FoundedAlready),
            26 => Ok(Cause::ChecksUsedUp),
            27 => Ok(Cause::NoSuchAccount),
            28 => Ok(Cause::StandsAlready),
            29 => Ok(Cause::NoRoom),
            30 => Ok(Cause::Absent),
            31 => Ok(Cause::BadOperand),
            _ => Err(UnknownCause(number)),
        }
    }
}
