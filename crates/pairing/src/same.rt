// Two laboratories' bytes of a block, or of a founding, side by side. Assumes nothing of the bytes.
ghost use Rattle.std.specs.Prelude.{Decides};
ghost use Rattle.exchange.specs.Life.{SameBlock, SameFounding};

use crate::message::Message;
use blocks::{DecodedBlock, DecodedFounding};

// Whether these are the same bytes, or bytes of two messages that are the same but for the order of their entries.
fn same<M: Message>(first: &[u8], second: &[u8]) -> bool
    ensures { Decides result (M.alike first.now second.now) }
{
    if first == second {
        return true;
    }
    let Ok(one) = M::read(first) else {
        return false;
    };
    let Ok(other) = M::read(second) else {
        return false;
    };
    one.reordered(&other)
}

// Whether these are the same bytes, or bytes of two readable blocks that are the same but for the order of their
// transactions.
pub fn same_block(first: &[u8], second: &[u8]) -> bool
    ensures { Decides result (SameBlock first.now second.now) }
{
    same::<DecodedBlock>(first, second)
}

// Whether these are the same bytes, or bytes of two readable foundings that are the same but for the order of their
// grants.
pub fn same_founding(first: &[u8], second: &[u8]) -> bool
    ensures { Decides result (SameFounding first.now second.now) }
{
    same::<DecodedFounding>(first, second)
}
