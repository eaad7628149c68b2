// The calls of the library for other languages, but for those that give texts: each is the call of the same name of a crate in *_calls.
// Kept: the C interface: an exported name stands in the static library alone.
#![tactic(auto)]

mod a32_c;
mod chip_c;
mod encode_c;
mod esr_c;
mod guest_c;
mod log_c;
mod onward_c;
mod packed_c;
mod short_c;
mod trap_c;
