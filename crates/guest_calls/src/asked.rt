// What a caller asks for by numbers. Every number is answered: one that means nothing stands for an injection that is refused.
ghost use Rattle.std.specs.Prelude.{◌≡◌, min};
ghost use Rattle.guest_calls.specs.Asked.{fault_of, no_fault, injection_of};

use fault::Fault;
use guest::{Access, Fetch, Injection};

// A number as a byte: 255 stands for what is larger, which is no level and no domain.
fn byte_of(n: u32) -> u8
    ensures { result ≡ min n 255 }
{
    u8::try_from(n).unwrap_or(255)
}

// Level 0 is none: no format has such a fault.
fn no_fault() -> Fault
    ensures { result ≡ no_fault }
{
    Fault::Translation(0)
}

// Kept: the C interface hands faults and injections in as numbers.
// The fault of a number.
#[tactic(auto, unfolding(crate::specs::Asked::fault_of))]
fn fault_of(fault: u32, level: u32) -> Fault
    ensures { result ≡ fault_of fault level }
{
    match fault {
        0 => Fault::External,
        1 => Fault::Translation(byte_of(level)),
        2 => Fault::AccessFlag(byte_of(level)),
        3 => Fault::Permission(byte_of(level)),
        4 => Fault::Alignment,
        _ => no_fault(),
    }
}

// The injection of a number.
#[tactic(auto, unfolding(crate::specs::Asked::injection_of))]
pub fn injection_of(
    injection: u32,
    fault: u32,
    level: u32,
    address: u64,
    write: u32,
    domain: u32,
) -> Injection
    ensures { result ≡ injection_of injection fault level address write domain }
{
    match injection {
        0 => Injection::UndefinedAt,
        1 => Injection::UndefinedAfter,
        2 => Injection::SupervisorCall,
        3 => Injection::PrefetchAbort(Fetch {
            fault: fault_of(fault, level),
            address,
        }),
        4 => Injection::DataAbort(Access {
            fault: fault_of(fault, level),
            address,
            write: state_words::is_mark(write),
            domain: byte_of(domain),
        }),
        _ => Injection::PrefetchAbort(Fetch {
            fault: no_fault(),
            address,
        }),
    }
}
