// Which editions have a record of a syndrome word.
#![tactic(auto)]

mod had;
mod il;

pub use had::{allowed, editions};
pub use il::il_rule;
