// What an A32 load or store does with the registers of a mode: which it transfers, how many, from which address on, and what becomes of its
// base.
#![tactic(auto)]

mod access;
mod place;
mod transfers;
mod value;

pub use access::{Access, access_in};
pub use place::back;
pub use transfers::registers_of;
pub use value::Bank;
