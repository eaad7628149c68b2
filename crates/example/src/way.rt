// How the guest goes on after a trap: the table 'After the trap, class by class' of docs/ENGINEER.md, for a monitor with one emulated card and
// no other work of its own.
ghost use Rattle.std.specs.Prelude.{◌≡◌};
ghost use Rattle.example.specs.Seen.{at_card, seen_of};
ghost use Rattle.example.specs.Way.{data_way, plain_way, sort_way, way_of};

use address::IntermediateAddress;
use fault::Fault;
use guest::{Access, Fetch, Injection};
use record::{Record, Sort};
use trap::Trap;

// What the monitor asks of a trap: its record, whether it is an access at the card, and the address that the guest is told.
#[derive(Clone, Copy)]
pub(crate) struct Seen {
    pub(crate) what: Record,
    pub(crate) card: bool,
    pub(crate) address: u64,
}

#[derive(Clone, Copy)]
pub(crate) enum Way {
    // It gets an exception.
    Inject(Injection),
    // The access that the chip described (ISV 1) is finished.
    Finish,
    // The chip described nothing (ISV 0): the instruction word at the guest's PC does, or the guest gets this abort.
    Describe(Injection),
    // It goes on past the instruction, of which nothing is left to do.
    StepOver,
    // It goes on as it was.
    Leave,
}

// The page of intermediate addresses that the card stands at.
const CARD: u64 = 0x0A00_0000;

fn at_card(place: Option<IntermediateAddress>) -> bool
    ensures { result ≡ at_card place }
{
    matches!(place, Some(IntermediateAddress::Byte(byte)) if byte / 4096 == CARD / 4096)
}

pub(crate) fn seen_in(trap: Trap) -> Seen
    ensures { result ≡ seen_of trap }
{
    match trap {
        Trap::Abort(abort) => Seen {
            what: abort.syndrome,
            card: at_card(abort.intermediate),
            // FAR, where it is known.
            address: abort.address.unwrap_or(0),
        },
        Trap::Addressed(at) => Seen {
            what: at.syndrome,
            card: false,
            address: at.address,
        },
        Trap::Plain(what) => Seen {
            what,
            card: false,
            address: 0,
        },
    }
}

// A data abort, by CM, ISV and WnR.
fn data_way(card: bool, address: u64, cm: bool, isv: bool, write: bool) -> Way
    ensures { result ≡ data_way card address cm isv write }
{
    let abort = Injection::DataAbort(Access {
        fault: Fault::External,
        address,
        write,
        domain: 0,
    });
    if !card {
        Way::Inject(abort)
    } else if cm {
        Way::StepOver
    } else if isv {
        Way::Finish
    } else {
        Way::Describe(abort)
    }
}

// A trap without an address. PC is past an SVC and past an HVC.
fn plain_way(class: u32) -> Way
    ensures { result ≡ plain_way class }
{
    match class {
        0x01 => Way::StepOver,
        0x11 => Way::Inject(Injection::SupervisorCall),
        0x12 => Way::Inject(Injection::UndefinedAfter),
        0x30 | 0x32 | 0x38 | 0x3A => Way::Leave,
        _ => Way::Inject(Injection::UndefinedAt),
    }
}

fn sort_way(class: u32, card: bool, address: u64, sort: Sort) -> Way
    ensures { result ≡ sort_way class card address sort }
{
    let fetch = Injection::PrefetchAbort(Fetch {
        fault: Fault::External,
        address,
    });
    match sort {
        Sort::Plain => plain_way(class),
        Sort::Addressed => {
            if class == 0x22 {
                Way::Inject(fetch)
            } else {
                Way::Leave
            }
        }
        Sort::InstructionAbort(_) => Way::Inject(fetch),
        Sort::DataAbort(abort) => data_way(card, address, abort.cm, abort.isv, abort.wnr),
        Sort::SError(_) => Way::Leave,
    }
}

// The way of a trap, in a guest with this status word. An instruction whose condition fails does nothing.
pub(crate) fn way_of(status: u32, seen: Seen) -> Way
    ensures { result ≡ way_of status seen }
{
    if !step::passes(status, seen.what) {
        return Way::StepOver;
    }
    let top = record::head(seen.what);
    sort_way(top.class, seen.card, seen.address, record::sort(seen.what))
}
