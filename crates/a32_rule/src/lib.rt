// A32 loads and stores: which fields a word can have, a word's fields read, and fields written as a word.
#![tactic(auto)]

mod answer;
mod legality;

pub use answer::{decode, encode};
