// What is said of a syndrome word and of a whole trap from AArch32, as lines appended to a text.
#![tactic(auto)]

mod address_lines;
mod trap_lines;
mod word_lines;

pub use trap_lines::trap_said;
pub use word_lines::word_said;
