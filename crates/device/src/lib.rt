// A guest's load or store at an emulated device, finished from the record of its data abort.
#![tactic(auto)]

mod access;
mod answer;

pub use access::finish;
pub use answer::{Moved, number};
