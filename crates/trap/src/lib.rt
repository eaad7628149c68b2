// The whole trap: a syndrome with exactly the addresses that are known, from the origin that the caller says.
#![tactic(auto)]

ghost use Rattle.std.specs.Prelude.{◌≡◌};
ghost use Rattle.trap.specs.Trap.{trap_from};
ghost use Rattle.trap.specs.Answer.{answer_record, TrapReading};
ghost use Rattle.trap.specs.Both.{BothReading};

use address::IntermediateAddress;
use record::{Addresses, Origin, Record};
use registers::{Esr, Far, Hpfar};
pub use trap_refusal::{TrapRefusal, count, mask, number};

// An instruction or data abort.
#[derive(Clone, Copy)]
pub struct Abort {
    pub syndrome: Record,
    // Where it is known.
    pub address: Option<u64>,
    pub intermediate: Option<IntermediateAddress>,
}

// An exception that is no abort and always tells its virtual address: a PC alignment fault or a watchpoint.
#[derive(Clone, Copy)]
pub struct Addressed {
    pub syndrome: Record,
    pub address: u64,
}

// A trap with the addresses that its class has.
#[derive(Clone, Copy)]
pub enum Trap {
    Abort(Abort),
    Addressed(Addressed),
    Plain(Record),
}

// The trap of a record, with the addresses that it makes known.
fn trap_from(known: Option<Addresses>, r: Record, far: Far, hpfar: Hpfar) -> Trap
    ensures { result ≡ trap_from known r far hpfar }
{
    match known {
        None => Trap::Plain(r),
        Some(Addresses::Virtual) => Trap::Addressed(Addressed {
            syndrome: r,
            address: far.0,
        }),
        Some(Addresses::Abort { .. }) => Trap::Abort(Abort {
            syndrome: r,
            address: address::virtual_address(known, far),
            intermediate: address::intermediate_address(known, far, hpfar),
        }),
    }
}

// Tests the registers that count, and shows the trap.
#[tactic(auto, unfolding(crate::specs::Answer::answer_record))]
fn answer_record(
    origin: Origin,
    edition: u32,
    r: Record,
    far: Far,
    hpfar: Hpfar,
) -> Result<Trap, TrapRefusal>
    ensures { result ≡ answer_record origin edition r far hpfar }
{
    let known = record::addresses(r);
    if address::hpfar_counts(known) & !address::hpfar_rule(edition, hpfar) {
        return Err(TrapRefusal::Hpfar);
    }
    if address::far_counts(known) & !address::far_rule(origin, far) {
        return Err(TrapRefusal::Far);
    }
    Ok(trap_from(known, r, far, hpfar))
}

// Reads a whole trap, from all three registers, in an edition.
// Kept: the registers are handed over one by one, each of its own type: one struct of them would only be taken apart again.
#[tactic(auto, using(crate::proofs::Promises::shows), unfolding(crate::specs::Answer::answer_of))]
pub fn read(
    origin: Origin,
    edition: u32,
    esr: Esr,
    far: Far,
    hpfar: Hpfar,
) -> Result<Trap, TrapRefusal>
    ensures { TrapReading origin edition esr far hpfar result }
{
    let r = syndrome::read(origin, edition, esr).map_err(TrapRefusal::Syndrome)?;
    answer_record(origin, edition, r, far, hpfar)
}

// Demand 3 beside running code: reads a whole trap in two editions, from one origin: what both show, or the refusal of the first that
// refuses it. Where both show it, they show the same.
pub fn read_both(
    origin: Origin,
    first: u32,
    second: u32,
    esr: Esr,
    far: Far,
    hpfar: Hpfar,
) -> Result<(Trap, Trap), TrapRefusal>
    ensures { BothReading origin first second esr far hpfar result }
{
    let trap = read(origin, first, esr, far, hpfar)?;
    let other = read(origin, second, esr, far, hpfar)?;
    Ok((trap, other))
}
