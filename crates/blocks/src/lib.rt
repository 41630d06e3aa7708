// Blocks and foundings from their bytes. Assumes nothing of the bytes. What is readable, and what it says, is in
// specs/Readable.antt; the order in which faults are looked for is in docs/FORMAT.md.
#![tactic(auto)]

mod decoded;
mod draft;
mod drafted;
mod parts;
mod stage;
mod walk;

pub use decoded::{DecodedBlock, DecodedFounding};
pub use parts::{ranges_known, read_one_way};
pub use walk::{read_block, read_founding};
