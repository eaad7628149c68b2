// The records: what a syndrome word says, by kind of exception. A record can hold what no word has, as a register number
// of 40 or IL 0 at an abort, so that the writer can refuse it.
// Kept: CV beside COND, and ISV beside its fields, are no Option: a word holds both, and comes back whole (read_as_written).

// Classes 0x00, 0x0E and 0x22: the class says all.
#[derive(Clone, Copy)]
pub struct Plain {
    pub class: u32,
    pub il: bool,
}

// Class 0x01: a trapped WFI or WFE.
#[derive(Clone, Copy)]
pub struct Wfx {
    pub il: bool,
    pub cv: bool,
    pub cond: u32,
    pub ti: bool,
}

// Classes 0x03, 0x05 and 0x08: a trapped MCR, MRC or VMRS.
#[derive(Clone, Copy)]
pub struct Mcr {
    pub class: u32,
    pub il: bool,
    pub cv: bool,
    pub cond: u32,
    pub opc2: u32,
    pub opc1: u32,
    pub crn: u32,
    pub rt: u32,
    pub crm: u32,
    pub direction: bool,
}

// Classes 0x04 and 0x0C: a trapped MCRR or MRRC.
#[derive(Clone, Copy)]
pub struct Mcrr {
    pub class: u32,
    pub il: bool,
    pub cv: bool,
    pub cond: u32,
    pub opc1: u32,
    pub rt2: u32,
    pub rt: u32,
    pub crm: u32,
    pub direction: bool,
}

// Class 0x06: a trapped LDC or STC.
#[derive(Clone, Copy)]
pub struct Ldc {
    pub il: bool,
    pub cv: bool,
    pub cond: u32,
    pub imm8: u32,
    pub rn: u32,
    pub offset: bool,
    pub am: u32,
    pub direction: bool,
}

// Class 0x07: a trapped SIMD or floating point instruction.
#[derive(Clone, Copy)]
pub struct Simd {
    pub il: bool,
    pub cv: bool,
    pub cond: u32,
}

// Classes 0x11, 0x12 and 0x38: an SVC, an HVC or a BKPT. Classes 0x15, 0x16 and 0x17: an SVC, an HVC or an SMC of AArch64.
#[derive(Clone, Copy)]
pub struct Call {
    pub class: u32,
    pub il: bool,
    pub imm16: u32,
}

// Class 0x13: a trapped SMC.
#[derive(Clone, Copy)]
pub struct Smc {
    pub il: bool,
    pub cv: bool,
    pub cond: u32,
    pub ccknownpass: bool,
}

// Class 0x20.
#[derive(Clone, Copy)]
pub struct InstructionAbort {
    pub il: bool,
    pub set: u32,
    pub fnv: bool,
    pub ea: bool,
    pub s1ptw: bool,
    pub code: u32,
}

// Class 0x24.
#[derive(Clone, Copy)]
pub struct DataAbort {
    pub il: bool,
    pub isv: bool,
    pub sas: u32,
    pub sse: bool,
    pub srt: u32,
    pub sf: bool,
    pub ar: bool,
    pub set: u32,
    pub fnv: bool,
    pub ea: bool,
    pub cm: bool,
    pub s1ptw: bool,
    pub wnr: bool,
    pub code: u32,
}

// Kept: the fields are Plain's, but its word has a fault code, and one type for both would let one stand for the other.
// Classes 0x30 and 0x3A: a breakpoint or a vector catch. The fault code is that of a debug exception, here and in the two kinds below, and
// is no field.
#[derive(Clone, Copy)]
pub struct Debug {
    pub class: u32,
    pub il: bool,
}

// Class 0x32: a software step. EX tells of a load-exclusive where ISV is 1.
#[derive(Clone, Copy)]
pub struct Step {
    pub il: bool,
    pub isv: bool,
    pub ex: bool,
}

// Class 0x34.
#[derive(Clone, Copy)]
pub struct Watchpoint {
    pub il: bool,
    pub cm: bool,
    pub wnr: bool,
}

// Class 0x2F: an SError interrupt. The code is DFSC.
#[derive(Clone, Copy)]
pub struct SError {
    pub il: bool,
    pub aet: u32,
    pub ea: bool,
    pub code: u32,
}

// Class 0x18: a trapped MSR, MRS or System instruction.
#[derive(Clone, Copy)]
pub struct System {
    pub il: bool,
    pub op0: u32,
    pub op2: u32,
    pub op1: u32,
    pub crn: u32,
    pub rt: u32,
    pub crm: u32,
    pub direction: bool,
}

// A kind of record with several classes holds the class; one with a single class holds none.
#[derive(Clone, Copy)]
pub enum Record {
    Plain(Plain),
    Wfx(Wfx),
    Mcr(Mcr),
    Mcrr(Mcrr),
    Ldc(Ldc),
    Simd(Simd),
    Call(Call),
    Smc(Smc),
    InstructionAbort(InstructionAbort),
    DataAbort(DataAbort),
    Debug(Debug),
    Step(Step),
    Watchpoint(Watchpoint),
    SError(SError),
    System(System),
}

// What is asked of every record before its fields: its class, whether its kind has that class, IL, and a data abort's ISV, which IL hangs
// on (a software step's is a field like any other).
#[derive(Clone, Copy)]
pub struct Head {
    pub class: u32,
    pub own: bool,
    pub il: bool,
    pub isv: bool,
}

// What sort of exception a record tells of, as far as rules beyond its layout go by it: a plain one; one that is no abort and has a virtual
// address, a PC alignment fault or a watchpoint; an abort, with its fields; or an SError interrupt, with its fields.
#[derive(Clone, Copy)]
pub enum Sort {
    Plain,
    Addressed,
    InstructionAbort(InstructionAbort),
    DataAbort(DataAbort),
    SError(SError),
}

// What the address registers tell, where they tell anything: FAR, the virtual address; or what an abort's FnV, S1PTW and fault code say of
// FAR and HPFAR.
#[derive(Clone, Copy)]
pub enum Addresses {
    Virtual,
    Abort { fnv: bool, s1ptw: bool, code: u32 },
}
