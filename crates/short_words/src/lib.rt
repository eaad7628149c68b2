// A record of the short form as sixteen words: its kind's number, its fields in the order of its struct, a flag as 0 or 1, and zeros after
// them. Kinds without a register are the long form's, and so are their words.
#![tactic(auto)]

mod from_words;
mod to_words;

pub use from_words::record_of;
pub use to_words::words_of;
