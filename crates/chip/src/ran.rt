// What ran when the chip trapped to the hypervisor.
ghost use Rattle.std.specs.Prelude.{◌≡◌};
ghost use Rattle.chip.specs.Ran.{ran_of, origin_of};

use bits::bit;
use record::Origin;

// The word that the chip saved, SPSR_EL2.
#[derive(Clone, Copy)]
pub struct Spsr(pub u64);

// HCR_EL2, as it was while the guest ran.
#[derive(Clone, Copy)]
pub struct Hcr(pub u64);

#[derive(Clone, Copy)]
pub enum Ran {
    // 64-bit code.
    AArch64,
    // A 32-bit program below a 64-bit kernel, whose exceptions are for that kernel.
    Program,
    // A guest whose EL1 is AArch32 too: its exceptions are those that are injected.
    Guest,
}

// SPSR_EL2.M[4] is 1 for AArch32, and HCR_EL2.RW is 1 where EL1 is AArch64.
pub fn ran_of(spsr: Spsr, hcr: Hcr) -> Ran
    ensures { result ≡ ran_of spsr hcr }
{
    if !bit(spsr.0, 4) {
        return Ran::AArch64;
    }
    if bit(hcr.0, 31) {
        Ran::Program
    } else {
        Ran::Guest
    }
}

// The origin by which its trap is read.
pub fn origin_of(ran: Ran) -> Origin
    ensures { result ≡ origin_of ran }
{
    match ran {
        Ran::AArch64 => Origin::AArch64,
        Ran::Program => Origin::AArch32,
        Ran::Guest => Origin::AArch32,
    }
}
