// The listing of a stream: a founding and blocks run on a replica, and the lines that say what came of them. Assumes
// nothing of the bytes: any account store and any offer book will do.
#![tactic(auto)]

mod line;
mod output;
mod standing;
mod stream;

pub use line::Line;
pub use output::write_lines;
pub use stream::{Listing, list_stream};
