// Why an abort came, from its record: the kind of fault, its level, and whether it was on a table walk; and the fault by which it is passed
// on to the guest.
#![tactic(auto)]

mod answer;
mod kind;
mod pass;

pub use answer::{CauseRefusal, cause_of, number};
pub use kind::{Cause, Kind, Level};
pub use pass::passed_on;
