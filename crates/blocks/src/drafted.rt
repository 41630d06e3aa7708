// The fields of a block in the making.

use arrayvec::ArrayVec;
use terms::{Transaction, Volume};

#[derive(Drop)]
pub(crate) struct Draft {
    pub(crate) height: u32,
    pub(crate) parent: [u8; 32],
    pub(crate) prices: [u32; 8],
    pub(crate) volumes: ArrayVec<Volume, 56>,
    pub(crate) transactions: ArrayVec<Transaction, 1024>,
}
