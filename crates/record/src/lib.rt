// Records of syndrome words: their kinds, what a word's bits hold, and what a record tells beside its fields. Nothing is judged here.
#![tactic(auto)]

mod class;
mod kinds;
mod origin;
pub mod split;
mod told;

pub use class::{head, is_class, mcr_class, mcrr_class, plain_class, without_isv};
pub use kinds::{
    Addresses, Call, DataAbort, Debug, Head, InstructionAbort, Ldc, Mcr, Mcrr, Plain, Record,
    SError, Simd, Smc, Sort, Step, System, Watchpoint, Wfx,
};
pub use origin::{Origin, from_aarch64};
pub use split::record_at;
pub use told::{addresses, sort};
