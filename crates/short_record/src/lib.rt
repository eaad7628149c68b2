// Records of the short form's words (HSR): their kinds, and what a word's bits hold. Nothing is judged here.
#![tactic(auto)]

mod class;
mod kinds;
mod split;

pub use class::{head, is_class};
pub use kinds::{DataAbort, InstructionAbort, Ldc, Mcr, Mcrr, Record, Simd};
pub use split::record_at;
