// Exceptions of a guest for other languages: injected, delivered and returned from, in a state of 48 words that the caller lends.
#![tactic(auto)]

mod asked;
mod calls;

pub use asked::injection_of;
pub use calls::{
    knucklepin_deliver, knucklepin_delivery_correction, knucklepin_from_spsr, knucklepin_held_in,
    knucklepin_inject, knucklepin_injection_correction, knucklepin_raise, knucklepin_resume,
    knucklepin_to_spsr,
};
