// The fields of A32 loads and stores: their layouts, and what a word's bits hold. Nothing is judged here.
#![tactic(auto)]

mod join;
mod kinds;
mod split;
mod transfers;

pub use join::joined;
pub use kinds::{Code, Fields, Immediate, Literal, Multiple, Register, Transfer};
pub use split::fields_at;
pub use transfers::{code, dual, loads};
