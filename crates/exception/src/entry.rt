// Exception entry: the one place that changes the guest's mode.
ghost use Rattle.std.specs.Prelude.{◌≡◌};
ghost use Rattle.exception.specs.Vector.{aligned, vector_base};
ghost use Rattle.exception.specs.Entry.{correction_in, saved_in, entered};

use crate::state::{FaultRegisters, Guest, Saved, with_register};
use bits::bit;
use signed::{Signed, sum};
use status::{Mode, entry_status, t32};

// What an exception does: the mode that it enters, its offset in the vector table, the mode's LR in the AArch64 numbering, whether A and F
// are set (else kept), and what is added to PC for the link, in either instruction set.
#[derive(Clone, Copy)]
pub struct Row {
    pub mode: Mode,
    pub vector: u32,
    pub link: usize,
    pub a: bool,
    pub f: bool,
    pub a32: Signed,
    pub t32: Signed,
}

// A vector table starts at a multiple of 32.
#[tactic(auto, using(status::proofs::Masks::field_zero), unfolding(crate::specs::Vector::aligned))]
pub fn aligned(vbar: u32) -> bool
    ensures { result ≡ aligned vbar }
{
    vbar & 0x1F == 0
}

// The exception base address: SCTLR.V chooses.
fn vector_base(sctlr: u32, vbar: u32) -> u32
    ensures { result ≡ vector_base sctlr vbar }
{
    if bit(sctlr as u64, 13) {
        0xFFFF_0000
    } else {
        vbar
    }
}

// The correction of the instruction set that the guest was in.
pub fn correction_in(row: Row, t32: bool) -> Signed
    ensures { result ≡ correction_in row t32 }
{
    if t32 { row.t32 } else { row.a32 }
}

// The saved status words, with `word` as the mode's own.
fn saved_in(mode: Mode, saved: Saved, word: u32) -> Saved
    ensures { result ≡ saved_in mode saved word }
{
    match mode {
        Mode::Supervisor => Saved { svc: word, ..saved },
        Mode::Abort => Saved { abt: word, ..saved },
        Mode::Undefined => Saved { und: word, ..saved },
        Mode::Fiq => Saved { fiq: word, ..saved },
        Mode::Irq => Saved { irq: word, ..saved },
    }
}

// The state as the handler finds it, with the fault registers that the exception leaves.
#[tactic(auto, unfolding(crate::specs::Entry::entered))]
pub fn enter(state: Guest, row: Row, faults: FaultRegisters) -> Guest
    ensures { result ≡ entered state row faults }
{
    let link = sum(state.pc, correction_in(row, t32(state.status)));
    let status = entry_status(
        state.marks,
        row.mode,
        row.a,
        row.f,
        state.status,
        state.sctlr,
    );
    Guest {
        regs: with_register(state.regs, row.link, link),
        pc: vector_base(state.sctlr, state.vbar).wrapping_add(row.vector),
        status,
        saved: saved_in(row.mode, state.saved, state.status),
        faults,
        ..state
    }
}
