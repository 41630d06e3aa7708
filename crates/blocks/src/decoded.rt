// A readable block and a readable founding, in fixed memory, with their ranges known.
ghost use Rattle.std.specs.Prelude.{◌≡◌, true};
ghost use Rattle.blocks.specs.Readable.{fit_block, fit_grants};
ghost use Rattle.blocks.specs.Drafts.{spoken};

use crate::drafted::Draft;
use arrayvec::ArrayVec;
use terms::Grant;

// A readable block. All its numbers are in range, and its volumes rise by their pairs.
#[derive(Drop)]
pub struct DecodedBlock {
    pub(crate) parts: Draft,
    ghost ranges: { fit_block (spoken parts) ≡ true },
}

// A readable founding. All its numbers are in range.
#[derive(Drop)]
pub struct DecodedFounding {
    pub(crate) grants: ArrayVec<Grant, 579>,
    ghost ranges: { fit_grants grants.items ≡ true },
}
