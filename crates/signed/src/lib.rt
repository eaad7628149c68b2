// A signed number of 32 bits, and a word plus or less one.
#![tactic(auto)]

ghost use Rattle.std.specs.Prelude.{◌≡◌};
ghost use Rattle.signed.specs.Signed.{signed, sum_of, difference_of};

// By its sign and its size, which takes all 32 bits: an offset register counts as unsigned.
#[derive(Clone, Copy)]
pub enum Signed {
    Plus(u32),
    Minus(u32),
}

// The word plus the number. The sum wraps at both ends of the address range.
#[tactic(auto, unfolding(crate::specs::Signed::sum_of))]
pub fn sum(word: u32, number: Signed) -> u32
    ensures { result ≡ sum_of word (signed number) }
{
    match number {
        Signed::Plus(n) => word.wrapping_add(n),
        Signed::Minus(n) => word.wrapping_sub(n),
    }
}

// The word less the number, which wraps in the same way: what takes a sum back.
#[tactic(auto, unfolding(crate::specs::Signed::sum_of))]
pub fn difference(word: u32, number: Signed) -> u32
    ensures { result ≡ difference_of word (signed number) }
{
    match number {
        Signed::Plus(n) => word.wrapping_sub(n),
        Signed::Minus(n) => word.wrapping_add(n),
    }
}
