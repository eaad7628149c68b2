// The two address registers: which of them a record makes known, what they may hold, and the addresses that they give.
//
// A register that isn't known is not looked at, whatever it holds.
#![tactic(auto)]

ghost use Rattle.std.specs.Prelude.{◌≡◌, ◌+◌};
ghost use Rattle.address.specs.Known.{virtual_known, intermediate_known, far_counts, hpfar_counts};
ghost use Rattle.address.specs.Page.{page_top, hpfar_rule, far_rule, page_address};
ghost use Rattle.address.specs.Shown.{virtual_of, abort_intermediate, intermediate_of};

use bits::field;
use record::{Addresses, Origin};
use registers::{Far, Hpfar};

// The intermediate physical address of an abort, where it has one: the page alone, or the byte.
#[derive(Clone, Copy)]
pub enum IntermediateAddress {
    Page(u64),
    Byte(u64),
}

// FAR of a synchronous external abort may not be valid.
fn virtual_known(fnv: bool, code: u32) -> bool
    ensures { result ≡ virtual_known fnv code }
{
    !((code == 0x10) & fnv)
}

// A stage 2 permission fault leaves HPFAR unknown, unless it was on a stage 1 table walk.
fn intermediate_known(s1ptw: bool, code: u32) -> bool
    ensures { result ≡ intermediate_known s1ptw code }
{
    match code {
        0x00..=0x0B | 0x29 | 0x2B => true,
        0x0C..=0x0F => s1ptw,
        _ => false,
    }
}

// Whether FAR gives an address that is known.
pub fn far_counts(a: Option<Addresses>) -> bool
    ensures { result ≡ far_counts a }
{
    match a {
        None => false,
        Some(Addresses::Virtual) => true,
        Some(Addresses::Abort { fnv, code, .. }) => virtual_known(fnv, code),
    }
}

// Whether HPFAR gives an address that is known.
pub fn hpfar_counts(a: Option<Addresses>) -> bool
    ensures { result ≡ hpfar_counts a }
{
    match a {
        None => false,
        Some(Addresses::Virtual) => false,
        Some(Addresses::Abort { s1ptw, code, .. }) => intermediate_known(s1ptw, code),
    }
}

// The lowest bit above the page number in HPFAR.
fn above_page(edition: u32) -> u32
    ensures { result ≡ page_top edition + 1 }
{
    if edition::has_lpa(edition) { 44 } else { 40 }
}

// Whether no bit outside the edition's page field is set: what is above it, and what is below.
pub fn hpfar_rule(edition: u32, hpfar: Hpfar) -> bool
    ensures { result ≡ hpfar_rule edition hpfar }
{
    let word = hpfar.0;
    (field(word, 63, above_page(edition)) == 0) & (field(word, 3, 0) == 0)
}

// Whether bits 63:32 are zero where an AArch32 guest's address has 32 bits; AArch64 has all 64.
pub fn far_rule(origin: Origin, far: Far) -> bool
    ensures { result ≡ far_rule origin far }
{
    record::from_aarch64(origin) | (field(far.0, 63, 32) == 0)
}

// FAR, where it counts.
pub fn virtual_address(a: Option<Addresses>, far: Far) -> Option<u64>
    ensures { result ≡ virtual_of a far }
{
    if far_counts(a) { Some(far.0) } else { None }
}

// The address of the page in HPFAR. Whatever the edition: its rule on the other bits is `hpfar_rule`.
fn page_address(hpfar: Hpfar) -> u64
    ensures { result ≡ page_address hpfar }
{
    field(hpfar.0, 43, 4) * 4096
}

// An abort's: the page, with FAR bits 11:0 unless the fault was on a stage 1 table walk, where FAR isn't the walked address.
fn abort_intermediate(s1ptw: bool, code: u32, far: Far, hpfar: Hpfar) -> Option<IntermediateAddress>
    ensures { result ≡ abort_intermediate s1ptw code far hpfar }
{
    if !intermediate_known(s1ptw, code) {
        return None;
    }
    let page = page_address(hpfar);
    if s1ptw {
        Some(IntermediateAddress::Page(page))
    } else {
        Some(IntermediateAddress::Byte(page + field(far.0, 11, 0)))
    }
}

pub fn intermediate_address(
    a: Option<Addresses>,
    far: Far,
    hpfar: Hpfar,
) -> Option<IntermediateAddress>
    ensures { result ≡ intermediate_of a far hpfar }
{
    match a {
        None => None,
        Some(Addresses::Virtual) => None,
        Some(Addresses::Abort { s1ptw, code, .. }) => abort_intermediate(s1ptw, code, far, hpfar),
    }
}
