// Editions of the Arm manual as sets of chip features, masks of editions, and the refusals that go by them.
#![tactic(auto)]

ghost use Rattle.std.specs.Prelude.{◌≡◌, true, not};
ghost use Rattle.edition.specs.Feature.{is_edition, ras, lpa};
ghost use Rattle.edition.specs.Mask.{mask_of};
ghost use Rattle.edition.specs.Judge.{refusal_number, refusal_mask, refusal_count, judge_of};

// How many editions there are. A mask of editions is a u32, which has room for more.
// Kept: an edition and a mask are numbers, since C hands them over, and refusal 1 is promised of a number that is no edition's.
pub const EDITIONS: u32 = 16;

// All editions, and those that have each feature that a constant table goes by. A function below says which editions each of the first two
// are.
pub const ALL: u32 = 0xFFFF;

pub const RAS: u32 = 0xAAAA;

pub const LPA2: u32 = 0xCCCC;

pub const HAFDBS: u32 = 0xF0F0;

// Why a word or a record is refused.
#[derive(Clone, Copy, PartialEq, Eq)]
pub enum Refusal {
    // 1: the edition's number is too large.
    UnknownEdition,
    // 2: bits 63:32 of the syndrome are not zero.
    UpperHalf,
    // 3: the exception class is not in the build, or not among those of the trap's origin or of the form.
    UnknownClass,
    // 4: IL is 0, a 16-bit instruction, where it must be 1.
    ShortInstruction,
    // 5: no edition has it.
    NoEdition,
    // 6: other editions have it: their mask, and its number of ones.
    OtherEditions(u32, u32),
}

// The refusal's number in the definition.
pub fn number(refusal: Refusal) -> u32
    ensures { result ≡ refusal_number refusal }
{
    match refusal {
        Refusal::UnknownEdition => 1,
        Refusal::UpperHalf => 2,
        Refusal::UnknownClass => 3,
        Refusal::ShortInstruction => 4,
        Refusal::NoEdition => 5,
        Refusal::OtherEditions(_, _) => 6,
    }
}

// The mask that a refusal carries.
// Kept: `mask` and `count` each pick one number of one variant; a shared function would hand out both, for each to drop one.
pub fn mask(refusal: Refusal) -> u32
    ensures { result ≡ refusal_mask refusal }
{
    match refusal {
        Refusal::OtherEditions(mask, _) => mask,
        _ => 0,
    }
}

// The number of editions that a refusal carries.
pub fn count(refusal: Refusal) -> u32
    ensures { result ≡ refusal_count refusal }
{
    match refusal {
        Refusal::OtherEditions(_, count) => count,
        _ => 0,
    }
}

// Whether the number is an edition's.
pub fn known(edition: u32) -> bool
    ensures { result ≡ is_edition edition }
{
    edition < EDITIONS
}

// Every edition.
#[tactic(auto, unfolding(crate::specs::Mask::mask_of))]
pub fn all_editions() -> u32
    ensures { result ≡ mask_of (λ e. true) }
{
    ALL
}

// The editions that have RAS.
#[tactic(auto, unfolding(crate::specs::Mask::mask_of))]
pub fn ras_editions() -> u32
    ensures { result ≡ mask_of ras }
{
    RAS
}

// The editions that don't have RAS.
#[tactic(auto, unfolding(crate::specs::Mask::mask_of))]
pub fn no_ras_editions() -> u32
    ensures { result ≡ mask_of (λ e. not (ras e)) }
{
    ALL - RAS
}

// Whether an edition has LPA, which counts 8.
pub fn has_lpa(edition: u32) -> bool
    ensures { result ≡ lpa edition }
{
    bits::bit(edition as u64, 3)
}

// What an edition says of something that the editions of a mask have.
#[tactic(auto, unfolding(crate::specs::Judge::judge_of))]
pub fn judge(edition: u32, mask: u32) -> Result<(), Refusal>
    ensures { result ≡ judge_of edition mask }
{
    if mask == 0 {
        return Err(Refusal::NoEdition);
    }
    if bits::bit(mask as u64, edition) {
        return Ok(());
    }
    Err(Refusal::OtherEditions(mask, u32::count_ones(mask)))
}
