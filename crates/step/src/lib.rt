// Going on after a trap: whether the trapped instruction counts, and the state past it.
#![tactic(auto)]

mod condition;
mod over;
mod past;
mod refusal;

pub use condition::passes;
pub use over::{Onward, had, number, step_over};
pub use past::stepped;
pub use refusal::{OnwardRefusal, onward_number};
