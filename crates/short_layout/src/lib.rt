// The layout of the short form's words (HSR): where the fields of each kind of record stand, and a record put together into its word.
// Nothing is judged here.
#![tactic(auto)]

mod join;

pub use join::joined;
