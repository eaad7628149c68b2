// A32 loads and stores that the chip doesn't describe (ISV 0): what an instruction does in a guest's state.
#![tactic(auto)]

mod instruction;

pub use instruction::{Described, InstructionRefusal, bank_of, describe, number};
