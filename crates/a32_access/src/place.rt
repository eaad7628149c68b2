// Where a load or store begins, and what becomes of its base.
ghost use Rattle.std.specs.Prelude.{◌≡◌, if◌then◌else◌};
ghost use Rattle.a32_access.specs.Place.{up_of, back_of, list_distance, distance_of, signed_by, address_of, change_of};

use a32_fields::Fields;
use signed::{Signed, sum};

fn up(f: Fields) -> bool
    ensures { result ≡ up_of f }
{
    match f {
        Fields::Immediate(r) => r.u,
        Fields::Register(r) => r.u,
        Fields::Literal(r) => r.u,
        Fields::Multiple(r) => r.u,
    }
}

// Whether the base is written back.
pub fn back(f: Fields) -> bool
    ensures { result ≡ back_of f }
{
    match f {
        Fields::Immediate(r) => !r.p | r.w,
        Fields::Register(r) => !r.p | r.w,
        Fields::Literal(r) => false,
        Fields::Multiple(r) => r.w,
    }
}

// From a base to the first address of a list of some size: IB and IA above, DB and DA below.
fn list_distance(p: bool, u: bool, size: u32) -> u32
    ensures { result ≡ list_distance p u size }
{
    if u {
        if p { 4 } else { 0 }
    } else {
        if p { size } else { size.saturating_sub(4) }
    }
}

// The offset, or nothing where the instruction is post-indexed.
fn indexed(p: bool, size: u32) -> u32
    ensures { result ≡ (if p then size else 0) }
{
    if p { size } else { 0 }
}

fn distance(f: Fields, size: u32) -> u32
    ensures { result ≡ distance_of f size }
{
    match f {
        Fields::Immediate(r) => indexed(r.p, size),
        Fields::Register(r) => indexed(r.p, size),
        Fields::Literal(r) => size,
        Fields::Multiple(r) => list_distance(r.p, r.u, size),
    }
}

// A size, added or subtracted.
fn signed_by(up: bool, size: u32) -> Signed
    ensures { result ≡ signed_by up size }
{
    if up {
        Signed::Plus(size)
    } else {
        Signed::Minus(size)
    }
}

pub(crate) fn address_of(f: Fields, base: u32, size: u32) -> u32
    ensures { result ≡ address_of f base size }
{
    sum(base, signed_by(up(f), distance(f, size)))
}

// The change of the base: 0 without write-back.
pub(crate) fn change_of(f: Fields, size: u32) -> Signed
    ensures { result ≡ change_of f size }
{
    if back(f) {
        signed_by(up(f), size)
    } else {
        Signed::Plus(0)
    }
}
