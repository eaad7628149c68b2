// The change of a record of the short form to one of the long form: registers of the guest's mode become registers in the AArch64
// numbering.
#![tactic(auto)]

ghost use Rattle.std.specs.Prelude.{◌≡◌};
ghost use Rattle.widen.specs.Register.{mapped, base, uses_pc};
ghost use Rattle.widen.specs.Long.{long_plain, long_mcr, long_mcrr, long_ldc, long_simd, long_instruction_abort, long_data_abort, long_of};
ghost use Rattle.widen.specs.Widening.{Widening};

use record::Origin;
use short_record::Record;

// Why no long record comes.
#[derive(Clone, Copy, PartialEq, Eq)]
pub enum WidenRefusal {
    // 9: no mode that a guest runs in.
    BadMode,
    // 5: no short edition has the record, it names the PC, or no long edition has the result.
    NoEdition,
}

// The AArch64 number of a register of a mode. One that is held nowhere stays as found.
fn mapped(mode: u32, number: u32) -> u32
    ensures { result ≡ mapped mode number }
{
    status::held_in(mode, number).unwrap_or(number)
}

// Rn of an LDC or STC. In a literal form, AM bit 2, it is UNKNOWN and stays as found.
fn base(mode: u32, am: u32, rn: u32) -> u32
    ensures { result ≡ base mode am rn }
{
    if bits::bit(am as u64, 2) {
        rn
    } else {
        mapped(mode, rn)
    }
}

// Whether a register that the record knows is 15, the PC.
fn uses_pc(r: Record) -> bool
    ensures { result ≡ uses_pc r }
{
    match r {
        Record::Plain(_) => false,
        Record::Wfx(_) => false,
        Record::Mcr(x) => x.rt == 15,
        Record::Mcrr(x) => (x.rt == 15) | (x.rt2 == 15),
        Record::Ldc(x) => !bits::bit(x.am as u64, 2) & (x.rn == 15),
        Record::Simd(_) => false,
        Record::Call(_) => false,
        Record::Smc(_) => false,
        Record::InstructionAbort(_) => false,
        Record::DataAbort(x) => x.isv & (x.srt == 15),
    }
}

// An UNKNOWN IL, that of class 0x22, becomes 1.
fn plain(x: record::Plain) -> record::Plain
    ensures { result ≡ long_plain x }
{
    record::Plain {
        class: x.class,
        il: x.il | (x.class == 0x22),
    }
}

// Kept: the conversions below go by the mode, which From can't take; simd and instruction_abort stand beside them.
fn mcr(mode: u32, x: short_record::Mcr) -> record::Mcr
    ensures { result ≡ long_mcr mode x }
{
    record::Mcr {
        class: x.class,
        il: x.il,
        cv: x.cv,
        cond: x.cond,
        opc2: x.opc2,
        opc1: x.opc1,
        crn: x.crn,
        rt: mapped(mode, x.rt),
        crm: x.crm,
        direction: x.direction,
    }
}

fn mcrr(mode: u32, x: short_record::Mcrr) -> record::Mcrr
    ensures { result ≡ long_mcrr mode x }
{
    record::Mcrr {
        class: x.class,
        il: x.il,
        cv: x.cv,
        cond: x.cond,
        opc1: x.opc1,
        rt2: mapped(mode, x.rt2),
        rt: mapped(mode, x.rt),
        crm: x.crm,
        direction: x.direction,
    }
}

fn ldc(mode: u32, x: short_record::Ldc) -> record::Ldc
    ensures { result ≡ long_ldc mode x }
{
    record::Ldc {
        il: x.il,
        cv: x.cv,
        cond: x.cond,
        imm8: x.imm8,
        rn: base(mode, x.am, x.rn),
        offset: x.offset,
        am: x.am,
        direction: x.direction,
    }
}

// TA and coproc are dropped.
fn simd(x: short_record::Simd) -> record::Simd
    ensures { result ≡ long_simd x }
{
    record::Simd {
        il: x.il,
        cv: x.cv,
        cond: x.cond,
    }
}

// The short form has no SET.
fn instruction_abort(x: short_record::InstructionAbort) -> record::InstructionAbort
    ensures { result ≡ long_instruction_abort x }
{
    record::InstructionAbort {
        il: x.il,
        set: 0,
        fnv: x.fnv,
        ea: x.ea,
        s1ptw: x.s1ptw,
        code: x.code,
    }
}

// The short form has no SF and no SET. AET, code 0x11, is in no long edition; with every other code bits 11:10 are FnV.
fn data_abort(mode: u32, x: short_record::DataAbort) -> record::DataAbort
    ensures { result ≡ long_data_abort mode x }
{
    record::DataAbort {
        il: x.il,
        isv: x.isv,
        sas: x.sas,
        sse: x.sse,
        srt: mapped(mode, x.srt),
        sf: false,
        ar: x.ar,
        set: 0,
        fnv: x.aet == 1,
        ea: x.ea,
        cm: x.cm,
        s1ptw: x.s1ptw,
        wnr: x.wnr,
        code: x.code,
    }
}

// The record with its registers mapped. Nothing is judged here.
fn long_record(mode: u32, r: Record) -> record::Record
    ensures { result ≡ long_of mode r }
{
    match r {
        Record::Plain(x) => record::Record::Plain(plain(x)),
        Record::Wfx(x) => record::Record::Wfx(x),
        Record::Mcr(x) => record::Record::Mcr(mcr(mode, x)),
        Record::Mcrr(x) => record::Record::Mcrr(mcrr(mode, x)),
        Record::Ldc(x) => record::Record::Ldc(ldc(mode, x)),
        Record::Simd(x) => record::Record::Simd(simd(x)),
        Record::Call(x) => record::Record::Call(x),
        Record::Smc(x) => record::Record::Smc(x),
        Record::InstructionAbort(x) => record::Record::InstructionAbort(instruction_abort(x)),
        Record::DataAbort(x) => record::Record::DataAbort(data_abort(mode, x)),
    }
}

// Changes a short record to a long one, given the number of the guest's mode. The guest is in AArch32, and stays so.
#[tactic(auto, unfolding(crate::specs::Widening::widen_of))]
pub fn widen(mode: u32, r: Record) -> Result<record::Record, WidenRefusal>
    ensures { Widening mode r result }
{
    if !status::is_mode(mode) {
        return Err(WidenRefusal::BadMode);
    }
    if short_rule::editions(r) == 0 {
        return Err(WidenRefusal::NoEdition);
    }
    if uses_pc(r) {
        return Err(WidenRefusal::NoEdition);
    }
    let long = long_record(mode, r);
    if rule::editions(Origin::AArch32, long) == 0 {
        return Err(WidenRefusal::NoEdition);
    }
    Ok(long)
}
