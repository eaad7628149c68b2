// Which short editions have a record of the short form.
#![tactic(auto)]

mod code;
mod il;
mod mask;
mod rules;

pub use code::editions;
pub use il::il_rule;
pub use mask::known;
pub use rules::{asynchronous, coproc_rule, no_syndrome_rule};
