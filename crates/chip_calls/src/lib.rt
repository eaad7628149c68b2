// What the chip's registers say, and why an abort came, for other languages. A record is sixteen words.
#![tactic(auto)]

ghost use Rattle.std.specs.Prelude.{◌≡◌, [], ◌∷◌};
ghost use Rattle.record_of_words.specs.Reading.{record_of};
ghost use Rattle.esr_calls.specs.Calls.{origin_of};
ghost use Rattle.chip.specs.Feature.{edition_of, short_edition_of, marks_of};
ghost use Rattle.chip_calls.specs.Calls.{marks_in, ran_number, origin_number, Running, kind_number, level_number, cause_in, Causing};

use cause::{Cause, CauseRefusal, Kind, Level};
use chip::{Hcr, IdAa64mmfr0, IdAa64mmfr1, IdAa64pfr0, IdMmfr3, IdPfr0, IdPfr2, Ran, Spsr};
use esr_calls::origin_of;
use record::Origin;
use record_of_words::record_of;

// The edition of a board.
pub fn knucklepin_edition_raw(pfr0: u64, mmfr0: u64, mmfr1: u64) -> u32
    ensures { result ≡ edition_of (record { 0 = pfr0 }) (record { 0 = mmfr0 }) (record { 0 = mmfr1 }) }
{
    chip::edition_of(IdAa64pfr0(pfr0), IdAa64mmfr0(mmfr0), IdAa64mmfr1(mmfr1))
}

// The edition of a board for the short form.
pub fn knucklepin_short_edition_raw(pfr0: u64) -> u32
    ensures { result ≡ short_edition_of (record { 0 = pfr0 }) }
{
    chip::short_edition_of(IdPfr0(pfr0))
}

// The marks of a 32-bit guest.
pub fn knucklepin_marks_raw(mmfr3: u64, pfr2: u64, pfr0: u64, marks: &mut [u32; 3])
    ensures { marks.new ≡ marks_in (marks_of (record { 0 = mmfr3 }) (record { 0 = pfr2 }) (record { 0 = pfr0 })) }
{
    let found = chip::marks_of(IdMmfr3(mmfr3), IdPfr2(pfr2), IdPfr0(pfr0));
    *marks = [found.pan as u32, found.ssbs as u32, found.dit as u32];
}

// Kept: numbers for kinds, here and below: the C interface.
// What ran, by number.
fn ran_number(ran: Ran) -> u32
    ensures { result ≡ ran_number ran }
{
    match ran {
        Ran::Guest => 0,
        Ran::AArch64 => 1,
        Ran::Program => 2,
    }
}

// An origin by number.
fn origin_number(origin: Origin) -> u32
    ensures { result ≡ origin_number origin }
{
    match origin {
        Origin::AArch32 => 0,
        Origin::AArch64 => 1,
    }
}

// What ran when the chip trapped, and the origin by which its trap is read.
pub fn knucklepin_ran_raw(spsr: u64, hcr: u64, origin: &mut u32) -> u32
    ensures { Running (record { 0 = spsr }) (record { 0 = hcr }) result origin.new }
{
    let ran = chip::ran_of(Spsr(spsr), Hcr(hcr));
    *origin = origin_number(chip::origin_of(ran));
    ran_number(ran)
}

// A kind of fault by number: those that an injection has come first, each with its injection's number.
fn kind_number(kind: Kind) -> u32
    ensures { result ≡ kind_number kind }
{
    match kind {
        Kind::External => 0,
        Kind::Translation => 1,
        Kind::AccessFlag => 2,
        Kind::Permission => 3,
        Kind::Alignment => 4,
        Kind::AddressSize => 5,
        Kind::Parity => 6,
        Kind::TlbConflict => 7,
        Kind::Update => 8,
        Kind::Lockdown => 9,
        Kind::Exclusive => 10,
    }
}

// A level by number: 4 is none, and -1 is all ones.
fn level_number(level: Option<Level>) -> u32
    ensures { result ≡ level_number level }
{
    match level {
        None => 4,
        Some(Level::Minus1) => 0xFFFF_FFFF,
        Some(Level::At(n)) => n,
    }
}

// A cause's kind, its level, whether it was on a walk, and whether an injection passes it on.
fn cause_in(answer: Result<Cause, CauseRefusal>) -> [u32; 4]
    ensures { result ≡ cause_in answer }
{
    match answer {
        Ok(cause) => [
            kind_number(cause.kind),
            level_number(cause.level),
            cause.walk as u32,
            cause::passed_on(cause).is_some() as u32,
        ],
        Err(_) => [0; 4],
    }
}

// Why an abort came, and whether an injection passes it on.
pub fn knucklepin_cause(origin: u32, syndrome: &[u32; 16], cause: &mut [u32; 4]) -> u32
    ensures { Causing (origin_of origin) (record_of syndrome.now) result cause.new }
{
    let answer = cause::cause_of(origin_of(origin), record_of(*syndrome));
    *cause = cause_in(answer);
    cause::number(answer)
}
