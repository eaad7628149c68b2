// The call over a guest's state.
ghost use Rattle.std.specs.Prelude.{◌≡◌};
ghost use Rattle.bits.specs.Field.{field_of};
ghost use Rattle.a32.specs.Promise.{answer_number, Describing};

use a32_access::{Access, Bank, access_in, registers_of};
use a32_rule::decode;
use bits::field32;
use exception::Guest;
use status::{sound, t32};

// Why an instruction is not described.
#[derive(Clone, Copy, PartialEq, Eq)]
pub enum InstructionRefusal {
    // 9: the status word's mode, or a bit of its 24:21, is wrong.
    UnsoundStatus,
    // 19: the guest is in T32 state.
    T32State,
    // 19: the word is none of these forms, or its decoding is UNPREDICTABLE.
    NoForm,
}

// The number of an answer, whatever it gives.
pub fn number<T: Drop>(answer: Result<T, InstructionRefusal>) -> u32
    ensures { result ≡ answer_number answer }
{
    match answer {
        Ok(_) => 0,
        Err(InstructionRefusal::UnsoundStatus) => 9,
        Err(InstructionRefusal::T32State) => 19,
        Err(InstructionRefusal::NoForm) => 19,
    }
}

// The answer, with the registers in transfer order: as many as the access counts, and 0 after them.
#[derive(Clone, Copy)]
pub struct Described {
    pub answer: Result<Access, InstructionRefusal>,
    // Kept: C takes all sixteen words (knucklepin_a32_describe), and `Describing` says that 0 stands after the last.
    pub registers: [u32; 16],
}

// What an instruction reads of the state, whose mode is bits 4:0 of the status word.
pub fn bank_of(state: Guest) -> Bank
    ensures regs { result.regs ≡ state.regs }
    ensures pc { result.pc ≡ state.pc }
    ensures mode { result.mode ≡ field_of state.status 4 0 }
{
    let regs = state.regs;
    Bank {
        regs,
        pc: state.pc,
        mode: field32(state.status as u64, 4, 0),
    }
}

// What a word does as an A32 load or store in the guest's state.
pub fn describe(state: Guest, word: u32) -> Described
    ensures { Describing state word result }
{
    let none = [0u32; 16];
    if !sound(state.marks, state.status) {
        return Described {
            answer: Err(InstructionRefusal::UnsoundStatus),
            registers: none,
        };
    }
    if t32(state.status) {
        return Described {
            answer: Err(InstructionRefusal::T32State),
            registers: none,
        };
    }
    let Some(f) = decode(word) else {
        return Described {
            answer: Err(InstructionRefusal::NoForm),
            registers: none,
        };
    };
    let numbers = registers_of(f);
    Described {
        answer: Ok(access_in(&bank_of(state), f)),
        registers: numbers,
    }
}
