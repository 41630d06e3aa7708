// What a decoded block and a decoded founding hold, part by part; and that bytes are read one way.
ghost use Rattle.std.specs.Prelude.{◌≡◌};
ghost use Rattle.blocks.specs.Decoded.{block_of, grants_of};
ghost use Rattle.blocks.specs.Laws.{ReadOneWay, Known};

use crate::decoded::{DecodedBlock, DecodedFounding};
use terms::{Grant, Transaction, Volume};

impl DecodedBlock {
    pub fn height(&self) -> u32
        ensures { result ≡ (block_of self.now).height }
    {
        self.parts.height
    }

    // The digest of the state that the block builds on.
    pub fn parent(&self) -> &[u8; 32]
        ensures { result.now ≡ (block_of self.now).parent }
    {
        &self.parts.parent
    }

    // The prices of assets 0 to 7.
    pub fn prices(&self) -> &[u32; 8]
        ensures { result.now ≡ (block_of self.now).prices }
    {
        &self.parts.prices
    }

    // The volumes, by rising pair.
    pub fn volumes(&self) -> &[Volume]
        ensures { result.now ≡ (block_of self.now).volumes }
    {
        self.parts.volumes.as_slice()
    }

    // The transactions, in the order of the block.
    pub fn transactions(&self) -> &[Transaction]
        ensures { result.now ≡ (block_of self.now).transactions }
    {
        self.parts.transactions.as_slice()
    }
}

impl DecodedFounding {
    // The grants, in the order of the founding.
    pub fn grants(&self) -> &[Grant]
        ensures { result.now ≡ grants_of self.now }
    {
        self.grants.as_slice()
    }
}

// Any bytes say one block or founding at most, or have one fault, and never both.
pub fn read_one_way() -> u8
    ensures { ReadOneWay }
{
    0
}

// All numbers of readable bytes are in range.
pub fn ranges_known() -> u8
    ensures { Known }
{
    0
}
