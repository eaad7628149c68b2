// What the ID registers say: the edition of the manual that the board has, and the marks of a 32-bit guest.
ghost use Rattle.std.specs.Prelude.{◌≡◌};
ghost use Rattle.chip.specs.Feature.{some_of, has_lpa2, has_lpa, counted_of, edition_of, short_edition_of, marks_of};

use bits::field;
use status::Marks;

// Kept: registers that are alike in form stay types of their own, so that a caller can't exchange two of them.
// ID_AA64PFR0_EL1.
#[derive(Clone, Copy)]
pub struct IdAa64pfr0(pub u64);

// ID_AA64MMFR0_EL1.
#[derive(Clone, Copy)]
pub struct IdAa64mmfr0(pub u64);

// ID_AA64MMFR1_EL1.
#[derive(Clone, Copy)]
pub struct IdAa64mmfr1(pub u64);

// ID_PFR0, which a hypervisor in AArch64 reads as ID_PFR0_EL1, as it does the next two.
#[derive(Clone, Copy)]
pub struct IdPfr0(pub u64);

// ID_PFR2.
#[derive(Clone, Copy)]
pub struct IdPfr2(pub u64);

// ID_MMFR3.
#[derive(Clone, Copy)]
pub struct IdMmfr3(pub u64);

// Whether a field isn't 0, which is "not implemented".
fn some(word: u64, high: u32, low: u32) -> bool
    ensures { result ≡ some_of word high low }
{
    field(word, high, low) != 0
}

// LPA2: TGran4 is 1, or TGran16 is 2. TGran4 is signed: 0b1111 is -1, no pages of 4 KB.
fn has_lpa2(mmfr0: IdAa64mmfr0) -> bool
    ensures { result ≡ has_lpa2 mmfr0 }
{
    (field(mmfr0.0, 31, 28) == 1) | (field(mmfr0.0, 23, 20) == 2)
}

// LPA: PARange is 52 bits or more.
fn has_lpa(mmfr0: IdAa64mmfr0) -> bool
    ensures { result ≡ has_lpa mmfr0 }
{
    6 <= field(mmfr0.0, 3, 0)
}

// What a feature counts in an edition.
fn counted(has: bool, count: u32) -> u32
    ensures { result ≡ counted_of has count }
{
    if has { count } else { 0 }
}

// The edition of a board, for a hypervisor in AArch64.
#[tactic(auto, unfolding(crate::specs::Feature::edition_of))]
pub fn edition_of(pfr0: IdAa64pfr0, mmfr0: IdAa64mmfr0, mmfr1: IdAa64mmfr1) -> u32
    ensures { result ≡ edition_of pfr0 mmfr0 mmfr1 }
{
    counted(some(pfr0.0, 31, 28), 1)
        + counted(has_lpa2(mmfr0), 2)
        + counted(some(mmfr1.0, 3, 0), 4)
        + counted(has_lpa(mmfr0), 8)
}

// The short form's edition, for a hypervisor in AArch32.
pub fn short_edition_of(pfr0: IdPfr0) -> u32
    ensures { result ≡ short_edition_of pfr0 }
{
    counted(some(pfr0.0, 31, 28), 1)
}

// The features whose bits the status word of a 32-bit guest has.
pub fn marks_of(mmfr3: IdMmfr3, pfr2: IdPfr2, pfr0: IdPfr0) -> Marks
    ensures { result ≡ marks_of mmfr3 pfr2 pfr0 }
{
    Marks {
        pan: some(mmfr3.0, 19, 16),
        ssbs: some(pfr2.0, 7, 4),
        dit: some(pfr0.0, 27, 24),
    }
}
