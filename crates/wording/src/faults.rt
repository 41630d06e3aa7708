// A fault in one plain sentence.
use std::fmt;
use terms::{Cause, Fault};

// What a fault's number says.
pub fn sentence(number: u8) -> &'static str {
    match Cause::try_from(number) {
        Ok(cause) => sentence_of(cause),
        Err(_) => "this number is no fault's",
    }
}

fn sentence_of(cause: Cause) -> &'static str {
    match cause {
        Cause::TooManyBytes => "there are more than 40,000 bytes",
        Cause::Unfinished => "the bytes end in a command, or before the end command",
        Cause::NoCommand => "this byte is no letter of a command",
        Cause::OutOfTurn =>
            "this command, the asset of this price or the pair of this volume is out of turn",
        Cause::OutOfRange =>
            "an operand is out of range, an account is 0, or an asset is sold for itself",
        Cause::TooManyTransactions => "this is transaction 1,025; a block has at most 1,024",
        Cause::BytesAfterEnd => "there are bytes after the end command",
        Cause::WrongHeight => "the block's height is not the replica's plus 1",
        Cause::WrongParent => "the block's parent is not the replica's digest",
        Cause::Uncleared =>
            "more of this asset is to be bought, at the block's prices, than is sold of it",
        Cause::NoSource => "the source of this transaction does not stand",
        Cause::OutOfWindow => "the sequence number is not one of the 64 above the source's floor",
        Cause::Repeated => "this source and sequence number occur twice",
        Cause::NoReceiver => "the receiver of this payment does not stand",
        Cause::BadAccount => "the new account stands already, is above the top, or is opened twice",
        Cause::NoOffer => "the offer to be cancelled does not stand",
        Cause::CancelledTwice => "the offer is cancelled twice",
        Cause::Overdrawn => "the account's balance of this asset would fall below zero",
        Cause::AccountsFull => "there would be more accounts than the store has room for",
        Cause::OffersFull => "there would be more offers than the book has room for",
        Cause::ExcessVolume => "the volume of this pair exceeds what its eligible offers sell",
        Cause::NotEmpty => "the store or the book is not empty at the founding",
        Cause::ExcessGrants => "the amount founded of this asset exceeds 68,719,476,735",
        Cause::NotFounded => "the replica is not founded",
        Cause::FoundedAlready => "the replica is founded already",
        Cause::ChecksUsedUp => "4,294,967,295 blocks have passed the check; no more can",
        Cause::NoSuchAccount => "the account is 0 or above the top",
        Cause::StandsAlready => "the account or the offer stands already",
        Cause::NoRoom => "there is no room left",
        Cause::Absent => "the account or the offer does not stand",
        Cause::BadOperand =>
            "an operand is out of range, an asset is sold for itself, or an offer would grow",
    }
}

// A fault with its places and its sentence.
#[derive(Clone, Copy)]
pub struct Report(pub Fault);

impl fmt::Display for Report {
    fn fmt<W: fmt::Write>(&self, f: &mut fmt::Formatter<W>) -> fmt::Result {
        let Fault {
            number,
            first,
            second,
        } = self.0;
        let why = sentence(number);
        write!(f, "fault {number} at ({first}, {second}): {why}")
    }
}
