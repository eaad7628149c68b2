// The state of a Non-secure AArch32 guest, and exception entry: the one place that changes its mode.
#![tactic(auto)]

mod entry;
mod state;

pub use entry::{Row, aligned, correction_in, enter};
pub use state::{FaultRegisters, Guest, Saved, register, with_register};
