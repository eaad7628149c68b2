// The words of the registers that report a trap: each is a kind of number of its own, so that a caller can't exchange them.
#![tactic(auto)]

// A syndrome word: ESR_EL2.
#[derive(Clone, Copy)]
pub struct Esr(pub u64);

// A fault address register word: FAR_EL2.
#[derive(Clone, Copy)]
pub struct Far(pub u64);

// An intermediate address register word: HPFAR_EL2.
#[derive(Clone, Copy)]
pub struct Hpfar(pub u64);

// A syndrome word of the short form: HSR.
#[derive(Clone, Copy)]
pub struct Hsr(pub u32);
