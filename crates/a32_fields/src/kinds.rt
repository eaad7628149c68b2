// The fields of an A32 load or store, by its form. Fields can hold what no word has, as a register number of 40 or a list of none, so that
// the writer can refuse them.

// What is transferred, and which way.
#[derive(Clone, Copy)]
pub enum Transfer {
    Ldr,
    Str,
    Ldrb,
    Strb,
    Ldrh,
    Strh,
    Ldrsb,
    Ldrsh,
    Ldrd,
    Strd,
}

// A transfer's own bits: of a word or an unsigned byte B (22) and L (20), of every other bits 6, 5 and L.
#[derive(Clone, Copy)]
pub enum Code {
    Word { b: bool, l: bool },
    Extra { s: bool, h: bool, l: bool },
}

// Base Rn and an immediate offset, which U adds or subtracts. P and W choose offset, pre-indexed or post-indexed addressing.
#[derive(Clone, Copy)]
pub struct Immediate {
    pub transfer: Transfer,
    pub cond: u32,
    pub p: bool,
    pub u: bool,
    pub w: bool,
    pub rn: u32,
    pub rt: u32,
    pub imm: u32,
}

// The same with the offset in register Rm.
#[derive(Clone, Copy)]
pub struct Register {
    pub transfer: Transfer,
    pub cond: u32,
    pub p: bool,
    pub u: bool,
    pub w: bool,
    pub rn: u32,
    pub rt: u32,
    pub rm: u32,
}

// A load at an offset from the instruction itself.
#[derive(Clone, Copy)]
pub struct Literal {
    pub transfer: Transfer,
    pub cond: u32,
    pub u: bool,
    pub rt: u32,
    pub imm: u32,
}

// LDM or STM: bit n of the list stands for register n. P and U are the mode: 00 DA, 01 IA, 10 DB, 11 IB.
#[derive(Clone, Copy)]
pub struct Multiple {
    pub load: bool,
    pub cond: u32,
    pub p: bool,
    pub u: bool,
    pub w: bool,
    pub rn: u32,
    pub list: u32,
}

#[derive(Clone, Copy)]
pub enum Fields {
    Immediate(Immediate),
    Register(Register),
    Literal(Literal),
    Multiple(Multiple),
}
