// The short editions, 0 and 1, which has RAS, and their masks.
ghost use Rattle.std.specs.Prelude.{◌≡◌, true, not};
ghost use Rattle.edition.specs.Feature.{ras};
ghost use Rattle.short_rule.specs.Edition.{is_edition, mask_of};

// How many short editions there are.
const EDITIONS: u32 = 2;

// Both editions, and the one that lacks RAS, which edition 1 has: for constant tables. A function below says which editions each is.
pub const ALL: u32 = 0b11;

pub const NO_RAS: u32 = 0b01;

// Whether the number is a short edition's.
pub fn known(edition: u32) -> bool
    ensures { result ≡ is_edition edition }
{
    edition < EDITIONS
}

#[tactic(auto, unfolding(crate::specs::Edition::mask_of))]
pub fn all_editions() -> u32
    ensures { result ≡ mask_of (λ e. true) }
{
    ALL
}

#[tactic(auto, unfolding(crate::specs::Edition::mask_of))]
pub fn ras_editions() -> u32
    ensures { result ≡ mask_of ras }
{
    ALL - NO_RAS
}

#[tactic(auto, unfolding(crate::specs::Edition::mask_of))]
pub fn no_ras_editions() -> u32
    ensures { result ≡ mask_of (λ e. not (ras e)) }
{
    NO_RAS
}
