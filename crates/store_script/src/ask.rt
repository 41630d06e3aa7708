// What a command asks. Assumes nothing.
use terms::Key;

// What is asked of an account store.
#[derive(Clone, Copy)]
pub enum AccountAsk {
    Open { number: u32 },
    OpenWith { number: u32, balances: [u64; 8] },
    SetBalance { number: u32, asset: u8, value: u64 },
    SetFloor { number: u32, value: u32 },
    Stands { number: u32 },
    Balance { number: u32, asset: u8 },
    Floor { number: u32 },
    Free { asset: u8 },
    Count,
    Capacity,
    Top,
    Next { number: u32 },
}

// What is asked of an offer book.
#[derive(Clone, Copy)]
pub enum OfferAsk {
    Place { key: Key, units: u64 },
    Reduce { key: Key, units: u64 },
    Replace { old: Key, new: Key, units: u64 },
    Amount { key: Key },
    Offered { sold: u8 },
    UpTo { sold: u8, bought: u8, limit: u32 },
    Count,
    Capacity,
    Next { key: Key },
}

#[derive(Clone, Copy)]
pub enum Ask {
    Accounts(AccountAsk),
    Offers(OfferAsk),
}
