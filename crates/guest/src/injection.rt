// The five injections, and document 01's table of them.
ghost use Rattle.std.specs.Prelude.{◌≡◌};
ghost use Rattle.guest.specs.Injection.{injection_row, correction_of};

use exception::{Guest, Row, correction_in};
use fault::Fault;
use signed::Signed;
use status::{Mode, t32};

// The instruction fetch that a prefetch abort reports.
#[derive(Clone, Copy)]
pub struct Fetch {
    pub fault: Fault,
    pub address: u64,
}

// The data access that a data abort reports. The domain is told where DFSR has one, and may be any number: above 15 is refused.
// Kept: the domain is any byte, since one above 15 is refusal 20 (`domain_fits`, specs/Tests.antt).
#[derive(Clone, Copy)]
pub struct Access {
    pub fault: Fault,
    pub address: u64,
    pub write: bool,
    pub domain: u8,
}

#[derive(Clone, Copy)]
pub enum Injection {
    // PC is at the undefined instruction.
    UndefinedAt,
    // PC is after the undefined instruction, which is 32 bits long.
    UndefinedAfter,
    // PC is after the SVC.
    SupervisorCall,
    PrefetchAbort(Fetch),
    DataAbort(Access),
}

// The injection's row of the table. F is kept in each.
pub(crate) fn injection_row(what: Injection) -> Row
    ensures { result ≡ injection_row what }
{
    match what {
        Injection::UndefinedAt => Row {
            mode: Mode::Undefined,
            vector: 0x04,
            link: 22,
            a: false,
            f: false,
            a32: Signed::Plus(4),
            t32: Signed::Plus(2),
        },
        Injection::UndefinedAfter => Row {
            mode: Mode::Undefined,
            vector: 0x04,
            link: 22,
            a: false,
            f: false,
            a32: Signed::Plus(0),
            t32: Signed::Minus(2),
        },
        Injection::SupervisorCall => Row {
            mode: Mode::Supervisor,
            vector: 0x08,
            link: 18,
            a: false,
            f: false,
            a32: Signed::Plus(0),
            t32: Signed::Plus(0),
        },
        Injection::PrefetchAbort(_) => Row {
            mode: Mode::Abort,
            vector: 0x0C,
            link: 20,
            a: true,
            f: false,
            a32: Signed::Plus(4),
            t32: Signed::Plus(4),
        },
        Injection::DataAbort(_) => Row {
            mode: Mode::Abort,
            vector: 0x10,
            link: 20,
            a: true,
            f: false,
            a32: Signed::Plus(8),
            t32: Signed::Plus(8),
        },
    }
}

// What an injection adds to the PC of a state for its link, by the state's instruction set: a return takes it away again.
pub fn correction(state: Guest, what: Injection) -> Signed
    ensures { result ≡ correction_of state what }
{
    correction_in(injection_row(what), t32(state.status))
}
