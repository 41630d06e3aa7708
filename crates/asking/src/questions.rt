// Questions and replies.
ghost use Rattle.std.specs.Prelude.{◌≡◌};
ghost use Rattle.asking.specs.declared.questions.Reply.TheVariants.{Number};

use terms::Key;

// The questions about a replica's own numbers, its store and its book.
#[derive(Clone, Copy)]
pub enum Question {
    Height,
    Digest,
    Passed,
    Committed,
    Lapsed,
    Rejected,
    Accounts,
    AccountCapacity,
    Top,
    Offers,
    OfferCapacity,
    Remainder(u8),
    Free(u8),
    Offered(u8),
    Stands(u32),
    Floor(u32),
    Balance(u32, u8),
    Amount(Key),
    AccountAbove(u32),
    OfferAbove(Key),
    UpTo(u8, u8, u32),
}

// What a question is answered: a number, a digest, an account or a key, if there is one.
#[derive(Clone, Copy, PartialEq, Eq, Debug)]
pub enum Reply {
    Number(u64),
    Digest([u8; 32]),
    Account(Option<u32>),
    Offer(Option<Key>),
}

impl From<u64> for Reply {
    ghost from_gives = { λ n reply. reply ≡ Number n };

    fn from(n: u64) -> Self {
        Reply::Number(n)
    }
}

impl From<u32> for Reply {
    ghost from_gives = { λ n reply. reply ≡ Number n };

    fn from(n: u32) -> Self {
        Reply::Number(n as u64)
    }
}
