// What the chip's registers say before a trap is read: the edition that the board has, the marks of a 32-bit guest, and what ran when it
// trapped. Each register is a kind of number of its own, so that a caller can't exchange them. Every word has an answer.
#![tactic(auto)]

mod features;
mod ran;

pub use features::{
    IdAa64mmfr0, IdAa64mmfr1, IdAa64pfr0, IdMmfr3, IdPfr0, IdPfr2, edition_of, marks_of,
    short_edition_of,
};
pub use ran::{Hcr, Ran, Spsr, origin_of, ran_of};
