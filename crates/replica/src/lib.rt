// The replica of the exchange, over any account store and any offer book: found, check, fill, commit, reject, and the
// questions. Nothing but these calls changes its store, its book or its numbers. Assumes nothing of the bytes.
#![tactic(auto)]

mod life;
mod numbers;
mod questions;

pub use life::{CheckedBlock, Replica};
