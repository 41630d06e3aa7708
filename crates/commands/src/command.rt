// One command of a block or a founding, as it stands in the bytes: what may be long is borrowed from them.

#[derive(Clone, Copy)]
pub enum Command<'a> {
    Begin {
        height: u32,
        parent: &'a [u8; 32],
    },
    Price {
        asset: u8,
        price: u32,
    },
    Volume {
        sold: u8,
        bought: u8,
        amount: u64,
    },
    Create {
        source: u32,
        sequence: u32,
        account: u32,
    },
    Pay {
        source: u32,
        sequence: u32,
        receiver: u32,
        asset: u8,
        amount: u64,
        memo: &'a [u8; 16],
    },
    Place {
        source: u32,
        sequence: u32,
        sold: u8,
        bought: u8,
        limit: u32,
        amount: u64,
    },
    Cancel {
        source: u32,
        sequence: u32,
        sold: u8,
        bought: u8,
        limit: u32,
        offer: u32,
    },
    Found {
        account: u32,
        balances: &'a [u8; 64],
    },
    End,
}

// A command and the place after it.
#[derive(Clone, Copy)]
pub struct Reading<'a> {
    pub command: Command<'a>,
    pub next: usize,
}
