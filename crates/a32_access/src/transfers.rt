// The registers of a load or store in transfer order, and their number.
ghost use Rattle.std.specs.Prelude.{◌≡◌, count_ones};
ghost use Rattle.a32_access.specs.Transferred.{transferred_from, listed_below, registers_of, number_from, count_of, padded};

use a32_fields::{Fields, Transfer, dual};
use bits::bit;

// The registers of a list, the lowest first.
#[tactic(auto, using(crate::proofs::Lists::listed_few), unfolding(crate::specs::Transferred::listed_below))]
fn listed(list: u32) -> [u32; 16]
    ensures { result ≡ padded 16 (listed_below 16 list) }
{
    let mut numbers = [0u32; 16];
    let mut count: usize = 0;
    for n in 0..16u32 {
        if bit(list as u64, n) {
            numbers[count] = n;
            count += 1;
        }
    }
    numbers
}

// Rt, and of two registers the one after it.
fn transferred(transfer: Transfer, rt: u32) -> [u32; 16]
    ensures { result ≡ padded 16 (transferred_from transfer rt) }
{
    let mut numbers = [0u32; 16];
    numbers[0] = rt;
    if dual(transfer) {
        numbers[1] = rt.wrapping_add(1);
    }
    numbers
}

// The registers in transfer order, and 0 after the last.
#[tactic(auto, unfolding(crate::specs::Transferred::registers_of))]
pub fn registers_of(f: Fields) -> [u32; 16]
    ensures { result ≡ padded 16 (registers_of f) }
{
    match f {
        Fields::Immediate(r) => transferred(r.transfer, r.rt),
        Fields::Register(r) => transferred(r.transfer, r.rt),
        Fields::Literal(r) => transferred(r.transfer, r.rt),
        Fields::Multiple(r) => listed(r.list),
    }
}

fn number_from(transfer: Transfer) -> u32
    ensures { result ≡ number_from transfer }
{
    if dual(transfer) { 2 } else { 1 }
}

// For a list, its number of ones.
pub(crate) fn ones_of(list: u32) -> u32
    ensures { result ≡ count_ones list }
{
    list.count_ones()
}

pub(crate) fn count_of(f: Fields) -> u32
    ensures { result ≡ count_of f }
{
    match f {
        Fields::Immediate(r) => number_from(r.transfer),
        Fields::Register(r) => number_from(r.transfer),
        Fields::Literal(r) => number_from(r.transfer),
        Fields::Multiple(r) => ones_of(r.list),
    }
}
