// What passes between a register and the device. SAS 0 is a byte, 1 a halfword, 2 a word.
#![tactic(auto)]

ghost use Rattle.std.specs.Prelude.{◌≡◌};
ghost use Rattle.data.specs.Data.{cut_to, reversed, transferred, sign_of, ones_above, extended};

use bits::bit;

// The low 8, 16 or 32 bits.
#[tactic(auto, using(status::proofs::Masks::low_bits), unfolding(crate::specs::Data::cut_to))]
fn cut_to(sas: u32, value: u32) -> u32
    ensures { result ≡ cut_to sas value }
{
    match sas {
        0 => value & 0xFF,
        1 => value & 0xFFFF,
        _ => value,
    }
}

// The bytes in reverse.
#[tactic(auto, using(status::proofs::Masks::low_bits), unfolding(crate::specs::Data::reversed))]
fn reversed(sas: u32, value: u32) -> u32
    ensures { result ≡ reversed sas value }
{
    match sas {
        0 => value & 0xFF,
        1 => ((value & 0xFFFF) as u16).swap_bytes() as u32,
        _ => value.swap_bytes(),
    }
}

// The low bits as they pass: reversed where the guest's data is big-endian.
pub fn transferred(sas: u32, big: bool, value: u32) -> u32
    ensures { result ≡ transferred sas big value }
{
    let low = cut_to(sas, value);
    if big { reversed(sas, low) } else { low }
}

fn sign_of(sas: u32, value: u32) -> bool
    ensures { result ≡ sign_of sas value }
{
    match sas {
        0 => bit(value as u64, 7),
        1 => bit(value as u64, 15),
        _ => bit(value as u64, 31),
    }
}

fn ones_above(sas: u32) -> u32
    ensures { result ≡ ones_above sas }
{
    match sas {
        0 => 0xFFFF_FF00,
        1 => 0xFFFF_0000,
        _ => 0,
    }
}

// The low bits as a register takes them: extended by sign where SSE says so, else by zero.
#[tactic(auto, using(crate::proofs::Sizes::joined))]
pub fn extended(sas: u32, sse: bool, value: u32) -> u32
    ensures { result ≡ extended sas sse value }
{
    let low = cut_to(sas, value);
    if sse & sign_of(sas, value) {
        ones_above(sas) | low
    } else {
        low
    }
}
