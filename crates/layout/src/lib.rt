// The layout of syndrome words (ESR): where the fields of each kind of record stand, and a record put together into its word. Nothing is
// judged here.
#![tactic(auto)]

pub mod join;

pub use join::joined;
