// Lives of replicas: events and answers, one replica run over a list of events, and two of any makes side by side, with
// the law of two replicas as the contract. Assumes nothing.
#![tactic(auto)]

mod events;
mod run;

pub use events::{Answer, Event, Stop};
pub use run::{Pair, Record, live, live_twice};
