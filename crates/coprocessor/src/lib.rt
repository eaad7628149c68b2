// A coprocessor read or write that trapped (MCR, MRC, VMRS, MCRR, MRRC), finished for the guest.
#![tactic(auto)]

mod answer;
mod nzcv;
mod transfer;

pub use answer::{Moved, number};
pub use transfer::finish;
