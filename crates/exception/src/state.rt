// What the monitor keeps of a guest. Every word is 32 bits wide.
ghost use Rattle.std.specs.Prelude.{◌≡◌};
ghost use Rattle.exception.specs.State.{register_in, with_register};

use status::Marks;

// The saved program status registers (SPSR) of the modes that an exception is taken to.
#[derive(Clone, Copy)]
pub struct Saved {
    pub fiq: u32,
    pub irq: u32,
    pub svc: u32,
    pub abt: u32,
    pub und: u32,
}

#[derive(Clone, Copy)]
pub struct FaultRegisters {
    pub dfsr: u32,
    pub ifsr: u32,
    pub dfar: u32,
    pub ifar: u32,
}

// `regs` has the guest's registers in the AArch64 numbering, `status` is its CPSR, and `marks` says which features it has.
#[derive(Clone, Copy)]
pub struct Guest {
    pub regs: [u32; 31],
    pub pc: u32,
    pub status: u32,
    pub saved: Saved,
    pub faults: FaultRegisters,
    pub sctlr: u32,
    pub vbar: u32,
    pub ttbcr: u32,
    pub marks: Marks,
}

// What register n holds; a state has no register from 31 on.
pub fn register(regs: [u32; 31], n: usize) -> u32
    ensures { result ≡ register_in regs n }
{
    if n < 31 { regs[n] } else { 0 }
}

// The registers with a new value in register n.
pub fn with_register(regs: [u32; 31], n: usize, value: u32) -> [u32; 31]
    ensures { result ≡ with_register regs n value }
{
    let mut after = regs;
    if n < 31 {
        after[n] = value;
    }
    after
}
