// The words of the script, as one table. Assumes nothing.

// What a word asks of an account store.
#[derive(Clone, Copy)]
pub enum AccountVerb {
    Open,
    OpenWith,
    SetBalance,
    SetFloor,
    Stands,
    Balance,
    Floor,
    Free,
    Count,
    Capacity,
    Top,
    Next,
}

// What a word asks of an offer book.
#[derive(Clone, Copy)]
pub enum OfferVerb {
    Place,
    Reduce,
    Replace,
    Amount,
    Offered,
    UpTo,
    Count,
    Capacity,
    Next,
}

#[derive(Clone, Copy)]
pub enum Verb {
    Fresh,
    Accounts(AccountVerb),
    Offers(OfferVerb),
}

// A word, what it means, and what to write in place of a line that begins with it and is no command.
#[derive(Clone, Copy)]
pub struct Word {
    pub name: &'static str,
    pub verb: Verb,
    pub usage: &'static str,
}

pub const NO_WORD: &str =
    "no such word; the words are fresh, open, open-with, set-balance, set-floor, stands, balance, floor, free, accounts, account-room, top, next-account, place, reduce, replace, amount, offered, up-to, offers, offer-room, next-offer";

const WORDS: [Word; 22] = [
    Word {
        name: "fresh",
        verb: Verb::Fresh,
        usage: "write fresh SLOTS TOP, with at most 100000 slots and a top up to 4294967295",
    },
    Word {
        name: "open",
        verb: Verb::Accounts(AccountVerb::Open),
        usage: "write open NUMBER, a number up to 4294967295",
    },
    Word {
        name: "open-with",
        verb: Verb::Accounts(AccountVerb::OpenWith),
        usage: "write open-with NUMBER and eight balances",
    },
    Word {
        name: "set-balance",
        verb: Verb::Accounts(AccountVerb::SetBalance),
        usage: "write set-balance NUMBER ASSET VALUE, an asset up to 255",
    },
    Word {
        name: "set-floor",
        verb: Verb::Accounts(AccountVerb::SetFloor),
        usage: "write set-floor NUMBER VALUE, numbers up to 4294967295",
    },
    Word {
        name: "stands",
        verb: Verb::Accounts(AccountVerb::Stands),
        usage: "write stands NUMBER, a number up to 4294967295",
    },
    Word {
        name: "balance",
        verb: Verb::Accounts(AccountVerb::Balance),
        usage: "write balance NUMBER ASSET, an asset up to 255",
    },
    Word {
        name: "floor",
        verb: Verb::Accounts(AccountVerb::Floor),
        usage: "write floor NUMBER, a number up to 4294967295",
    },
    Word {
        name: "free",
        verb: Verb::Accounts(AccountVerb::Free),
        usage: "write free ASSET, an asset up to 255",
    },
    Word {
        name: "accounts",
        verb: Verb::Accounts(AccountVerb::Count),
        usage: "write accounts, alone",
    },
    Word {
        name: "account-room",
        verb: Verb::Accounts(AccountVerb::Capacity),
        usage: "write account-room, alone",
    },
    Word {
        name: "top",
        verb: Verb::Accounts(AccountVerb::Top),
        usage: "write top, alone",
    },
    Word {
        name: "next-account",
        verb: Verb::Accounts(AccountVerb::Next),
        usage: "write next-account NUMBER, a number up to 4294967295",
    },
    Word {
        name: "place",
        verb: Verb::Offers(OfferVerb::Place),
        usage: "write place SOLD BOUGHT LIMIT ACCOUNT SEQUENCE UNITS, assets up to 255, the next three up to 4294967295",
    },
    Word {
        name: "reduce",
        verb: Verb::Offers(OfferVerb::Reduce),
        usage: "write reduce SOLD BOUGHT LIMIT ACCOUNT SEQUENCE UNITS, assets up to 255, the next three up to 4294967295",
    },
    Word {
        name: "replace",
        verb: Verb::Offers(OfferVerb::Replace),
        usage: "write replace, the five numbers of the old key, the five of the new one, and UNITS",
    },
    Word {
        name: "amount",
        verb: Verb::Offers(OfferVerb::Amount),
        usage: "write amount SOLD BOUGHT LIMIT ACCOUNT SEQUENCE, assets up to 255, the others up to 4294967295",
    },
    Word {
        name: "offered",
        verb: Verb::Offers(OfferVerb::Offered),
        usage: "write offered SOLD, an asset up to 255",
    },
    Word {
        name: "up-to",
        verb: Verb::Offers(OfferVerb::UpTo),
        usage: "write up-to SOLD BOUGHT LIMIT, assets up to 255, a limit up to 4294967295",
    },
    Word {
        name: "next-offer",
        verb: Verb::Offers(OfferVerb::Next),
        usage: "write next-offer SOLD BOUGHT LIMIT ACCOUNT SEQUENCE, assets up to 255, the others up to 4294967295",
    },
    Word {
        name: "offers",
        verb: Verb::Offers(OfferVerb::Count),
        usage: "write offers, alone",
    },
    Word {
        name: "offer-room",
        verb: Verb::Offers(OfferVerb::Capacity),
        usage: "write offer-room, alone",
    },
];

// The word of this name.
pub fn find(name: &str) -> Option<&'static Word> {
    WORDS.iter().find(|word| word.name == name)
}
