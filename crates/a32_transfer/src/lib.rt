// What an A32 load or store moves between a mode's registers and the device: how wide, from and to which addresses, and what a load leaves.
#![tactic(auto)]

mod giving;
mod landing;
mod shape;

pub use giving::{addresses, given};
pub use landing::{Landing, landed, written_back};
pub use shape::{Shape, shape_of};
