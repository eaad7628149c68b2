// The bits of a word by their numbers in the manual: `field(word, 19, 17)` is what the manual writes as word<19:17>.
// Every function has an answer for every argument: bits that a word doesn't have are 0.
#![tactic(auto)]

ghost use Rattle.std.specs.Prelude.{◌≡◌, ◌+◌, ◌%◌, ◌^◌, min};
ghost use Rattle.bits.specs.Field.{width_of, field_of, bit_of, digit, placed_of};

// How many bits high:low are.
fn width(high: u32, low: u32) -> u64
    ensures { result ≡ width_of high low }
{
    (high as u64 + 1).saturating_sub(low as u64)
}

// The lowest `width` bits of a value.
#[tactic(auto, using(crate::proofs::Powers::cut_wide))]
fn cut(value: u64, width: u64) -> u64
    ensures { result ≡ value % 2 ^ width }
{
    if width < 64 {
        value & ((1u64 << width) - 1)
    } else {
        value
    }
}

// Bits high:low of a word.
#[tactic(auto, using(crate::proofs::Powers::field_out))]
pub fn field(word: u64, high: u32, low: u32) -> u64
    ensures { result ≡ field_of word high low }
{
    if low < 64 {
        cut(word >> low, width(high, low))
    } else {
        0
    }
}

// Bits high:low of a word, of which only the lowest 32 count, as a u32.
#[tactic(auto, using(crate::proofs::Powers::field_out))]
pub fn field32(word: u64, high: u32, low: u32) -> u32
    ensures { result ≡ field_of word (min high (low + 31)) low }
{
    if low < 64 {
        field(word, high.min(low + 31), low) as u32
    } else {
        0
    }
}

// Whether one bit of a word is 1.
#[tactic(auto, using(crate::proofs::Powers::field_out))]
pub fn bit(word: u64, at: u32) -> bool
    ensures { result ≡ bit_of word at }
{
    if at < 64 {
        (word >> at) & 1 == 1
    } else {
        false
    }
}

// A value cut to bits high:low of a word, all other bits 0.
#[tactic(auto, using(crate::proofs::Powers::shifted_over))]
pub fn place(value: u32, high: u32, low: u32) -> u64
    ensures { result ≡ placed_of value high low }
{
    if low < 64 {
        cut(value as u64, width(high, low)) << low
    } else {
        0
    }
}

// A yes or no at one bit of a word, all other bits 0.
pub fn flag(value: bool, at: u32) -> u64
    ensures { result ≡ placed_of (digit value) at at }
{
    place(value as u32, at, at)
}
