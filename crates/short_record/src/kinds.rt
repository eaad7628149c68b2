// The records of the short form: what an HSR word says, by kind of exception. Kinds without a register have the long form's layout and are
// its structs; a register here is one of the current mode's, R0 to R15. A record can hold what no word has, so that the writer can refuse
// it.
use record::{Call, Plain, Smc, Wfx};

// Kept: Mcr, Mcrr and Ldc have the long form's fields, but a register is another number: one type would let it pass unmapped (C-11.20).

// Classes 0x03, 0x05 and 0x08: a trapped MCR, MRC or VMRS.
#[derive(Clone, Copy)]
pub struct Mcr {
    pub class: u32,
    pub il: bool,
    pub cv: bool,
    pub cond: u32,
    pub opc2: u32,
    pub opc1: u32,
    pub crn: u32,
    pub rt: u32,
    pub crm: u32,
    pub direction: bool,
}

// Classes 0x04 and 0x0C: a trapped MCRR or MRRC.
#[derive(Clone, Copy)]
pub struct Mcrr {
    pub class: u32,
    pub il: bool,
    pub cv: bool,
    pub cond: u32,
    pub opc1: u32,
    pub rt2: u32,
    pub rt: u32,
    pub crm: u32,
    pub direction: bool,
}

// Class 0x06: a trapped LDC or STC.
#[derive(Clone, Copy)]
pub struct Ldc {
    pub il: bool,
    pub cv: bool,
    pub cond: u32,
    pub imm8: u32,
    pub rn: u32,
    pub offset: bool,
    pub am: u32,
    pub direction: bool,
}

// Class 0x07: a trapped SIMD or floating point instruction.
#[derive(Clone, Copy)]
pub struct Simd {
    pub il: bool,
    pub cv: bool,
    pub cond: u32,
    pub ta: bool,
    pub coproc: u32,
}

// Class 0x20.
#[derive(Clone, Copy)]
pub struct InstructionAbort {
    pub il: bool,
    pub fnv: bool,
    pub ea: bool,
    pub s1ptw: bool,
    pub code: u32,
}

// Class 0x24. `aet` is bits 11:10: AET of an SError interrupt, code 0x11; of every other abort bit 11 is 0 and bit 10 is FnV.
#[derive(Clone, Copy)]
pub struct DataAbort {
    pub il: bool,
    pub isv: bool,
    pub sas: u32,
    pub sse: bool,
    pub srt: u32,
    pub ar: bool,
    pub aet: u32,
    pub ea: bool,
    pub cm: bool,
    pub s1ptw: bool,
    pub wnr: bool,
    pub code: u32,
}

// A kind of record with several classes holds the class; one with a single class holds none.
#[derive(Clone, Copy)]
pub enum Record {
    Plain(Plain),
    Wfx(Wfx),
    Mcr(Mcr),
    Mcrr(Mcrr),
    Ldc(Ldc),
    Simd(Simd),
    Call(Call),
    Smc(Smc),
    InstructionAbort(InstructionAbort),
    DataAbort(DataAbort),
}
