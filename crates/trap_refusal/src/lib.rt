// A refusal of a whole trap, with its number, mask and number of editions.
#![tactic(auto)]

ghost use Rattle.std.specs.Prelude.{◌≡◌};
ghost use Rattle.trap_refusal.specs.Numbers.{trap_number, trap_mask, trap_count};

use edition::Refusal;

// Why a trap is refused: as its syndrome is, or by an address register.
#[derive(Clone, Copy, PartialEq, Eq)]
pub enum TrapRefusal {
    // 1 to 6.
    Syndrome(Refusal),
    // 7: HPFAR counts, and a bit outside its field is set.
    Hpfar,
    // 8: FAR counts, and its bits 63:32 are not zero. From AArch32 alone.
    Far,
}

// Kept: a refusal's number, mask and count are what the C interface hands out.
// The refusal's number in the definition.
pub fn number(refusal: TrapRefusal) -> u32
    ensures { result ≡ trap_number refusal }
{
    match refusal {
        TrapRefusal::Syndrome(r) => edition::number(r),
        TrapRefusal::Hpfar => 7,
        TrapRefusal::Far => 8,
    }
}

// The mask that a refusal carries.
pub fn mask(refusal: TrapRefusal) -> u32
    ensures { result ≡ trap_mask refusal }
{
    match refusal {
        TrapRefusal::Syndrome(r) => edition::mask(r),
        TrapRefusal::Hpfar => 0,
        TrapRefusal::Far => 0,
    }
}

// The number of editions that a refusal carries.
pub fn count(refusal: TrapRefusal) -> u32
    ensures { result ≡ trap_count refusal }
{
    match refusal {
        TrapRefusal::Syndrome(r) => edition::count(r),
        TrapRefusal::Hpfar => 0,
        TrapRefusal::Far => 0,
    }
}
