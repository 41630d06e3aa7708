// An ordered table over a lent slice, for any record that names its key, and the sum of any run of records that
// name an amount. Assumes nothing: every function takes any arguments, and refuses what does not fit.
#![tactic(auto)]

pub mod records;
pub mod sums;
pub mod table;

pub use sums::{Amounts, total};
pub use table::{Keyed, SortKey, Table, search};
