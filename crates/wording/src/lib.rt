// Commands and faults in plain words, for programs to print. What is printed is tested, not proved.
#![tactic(auto)]

mod faults;
mod lines;

pub use faults::{Report, sentence};
pub use lines::Line;
