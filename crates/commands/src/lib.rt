// The commands that blocks and foundings are made of: one command at a place of the bytes, and where the first end is.
// Assumes nothing of the bytes. The format is in docs/FORMAT.md, and in specs/Format.antt and specs/Extent.antt.
#![tactic(auto)]

mod command;
mod extent;
mod kind;
mod parser;
mod ranges;

pub use command::{Command, Reading};
pub use extent::length;
pub use parser::{parse, read, skip};
pub use ranges::{eight_balances, in_range};
pub use terms::fault_at;
