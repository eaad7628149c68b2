// Whole traps for other languages: read, with the record in sixteen words that the caller lends.
#![tactic(auto)]

ghost use Rattle.std.specs.Prelude.{◌≡◌};
ghost use Rattle.trap.specs.Answer.{answer_of};
ghost use Rattle.esr_calls.specs.Calls.{origin_of};
ghost use Rattle.trap_calls.specs.Whole.{syndrome_in, known_in, addresses_in, intermediate_known, intermediate_word, TrapWords};

use address::IntermediateAddress;
use esr_calls::origin_of;
use record::Record;
use registers::{Esr, Far, Hpfar};
use trap::Trap;

fn syndrome_in(trap: Trap) -> Record
    ensures { result ≡ syndrome_in trap }
{
    match trap {
        Trap::Abort(t) => t.syndrome,
        Trap::Addressed(t) => t.syndrome,
        Trap::Plain(r) => r,
    }
}

fn intermediate_known(address: Option<IntermediateAddress>) -> u32
    ensures { result ≡ intermediate_known address }
{
    match address {
        None => 0,
        Some(IntermediateAddress::Page(_)) => 1,
        Some(IntermediateAddress::Byte(_)) => 2,
    }
}

fn intermediate_word(address: Option<IntermediateAddress>) -> u64
    ensures { result ≡ intermediate_word address }
{
    match address {
        None => 0,
        Some(IntermediateAddress::Page(n) | IntermediateAddress::Byte(n)) => n,
    }
}

// Kept: numbers for kinds: the C interface.
// The trap's sort, whether its virtual address is known, and which intermediate address is.
fn known_in(trap: Trap) -> [u32; 3]
    ensures { result ≡ known_in trap }
{
    match trap {
        Trap::Abort(t) => [
            0,
            t.address.is_some() as u32,
            intermediate_known(t.intermediate),
        ],
        Trap::Addressed(_) => [1, 1, 0],
        Trap::Plain(_) => [2, 0, 0],
    }
}

fn addresses_in(trap: Trap) -> [u64; 2]
    ensures { result ≡ addresses_in trap }
{
    match trap {
        Trap::Abort(t) => [t.address.unwrap_or(0), intermediate_word(t.intermediate)],
        Trap::Addressed(t) => [t.address, 0],
        Trap::Plain(_) => [0, 0],
    }
}

// Reads a whole trap.
pub fn knucklepin_trap_read_raw(
    origin: u32,
    edition: u32,
    esr: u64,
    far: u64,
    hpfar: u64,
    syndrome: &mut [u32; 16],
    known: &mut [u32; 3],
    addresses: &mut [u64; 2],
    editions: &mut [u32; 2],
) -> u32
    ensures { TrapWords (answer_of (origin_of origin) edition (record { 0 = esr }) (record { 0 = far }) (record { 0 = hpfar })) result syndrome.new known.new addresses.new editions.new }
{
    match trap::read(origin_of(origin), edition, Esr(esr), Far(far), Hpfar(hpfar)) {
        Ok(shown) => {
            *syndrome = record_words::words_of(syndrome_in(shown));
            *known = known_in(shown);
            *addresses = addresses_in(shown);
            *editions = [0, 0];
            0
        }
        Err(refusal) => {
            *syndrome = [0u32; 16];
            *known = [0, 0, 0];
            *addresses = [0, 0];
            *editions = [trap::mask(refusal), trap::count(refusal)];
            trap::number(refusal)
        }
    }
}
