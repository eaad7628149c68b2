// An A32 load or store that the chip doesn't describe (ISV 0), finished from its instruction word.
#![tactic(auto)]

mod answer;
mod branch;
mod perform;

pub use answer::{Finished, Moved, Outcome, number};
pub use perform::finish;
