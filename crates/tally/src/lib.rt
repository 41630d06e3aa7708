// The least place at which a rule is broken over a list, and sums under keys: what the judging of a block is made of.
// Assumes nothing: every function takes any arguments, and refuses what does not fit.
#![tactic(auto)]

pub mod effects;
mod memory;
pub mod rules;

pub use effects::{Effect, Gather, Ledger, MAX_EFFECTS, MAX_ITEMS, Net, look_up};
pub use rules::{Place, Placed, Rule, report};
