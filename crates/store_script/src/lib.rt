// The script that the program `stores` reads: its words, what a line asks of stores or books, and what they may answer.
// Assumes nothing of a line.
#![tactic(auto)]

mod answer;
mod ask;
mod lines;
mod operands;
mod words;

pub use answer::Answer;
pub use ask::{AccountAsk, Ask, OfferAsk};
pub use lines::{Command, Line, Sizes, Usage, parse};
pub use operands::Operands;
