// A record put together into a word, each field cut to its bits. Nothing is judged here. The kinds without a register are the short form's
// too.
ghost use Rattle.std.specs.Prelude.{◌≡◌, []};
ghost use Rattle.bits.specs.Inner.{joined_from};
ghost use Rattle.layout.specs.Fields.{head, condition, plain_fields, wfx_fields, mcr_fields, mcrr_fields, ldc_fields, simd_fields};
ghost use Rattle.layout.specs.Fields.{call_fields, smc_fields, instruction_abort_fields, data_abort_fields, debug_fields, step_fields};
ghost use Rattle.layout.specs.Fields.{watchpoint_fields, serror_fields, system_fields, fields_of};

use bits::{flag, place};
use record::{
    Call, DataAbort, Debug, InstructionAbort, Ldc, Mcr, Mcrr, Plain, Record, SError, Simd, Smc,
    Step, System, Watchpoint, Wfx,
};

// The fault code of a debug exception.
const DEBUG_CODE: u32 = 0x22;

// EC and IL.
pub fn head_of(class: u32, il: bool) -> u64
    ensures { result ≡ joined_from 0 (head class il []) }
{
    place(class, 31, 26) | flag(il, 25)
}

// EC, IL, CV and COND.
pub fn conditional(class: u32, il: bool, cv: bool, cond: u32) -> u64
    ensures { result ≡ joined_from 0 (head class il (condition cv cond [])) }
{
    head_of(class, il) | flag(cv, 24) | place(cond, 23, 20)
}

pub fn plain(r: Plain) -> u64
    ensures { result ≡ joined_from 0 (plain_fields r) }
{
    head_of(r.class, r.il)
}

pub fn wfx(r: Wfx) -> u64
    ensures { result ≡ joined_from 0 (wfx_fields r) }
{
    conditional(0x01, r.il, r.cv, r.cond) | flag(r.ti, 0)
}

fn mcr(r: Mcr) -> u64
    ensures { result ≡ joined_from 0 (mcr_fields r) }
{
    conditional(r.class, r.il, r.cv, r.cond)
        | place(r.opc2, 19, 17)
        | place(r.opc1, 16, 14)
        | place(r.crn, 13, 10)
        | place(r.rt, 9, 5)
        | place(r.crm, 4, 1)
        | flag(r.direction, 0)
}

fn mcrr(r: Mcrr) -> u64
    ensures { result ≡ joined_from 0 (mcrr_fields r) }
{
    conditional(r.class, r.il, r.cv, r.cond)
        | place(r.opc1, 19, 16)
        | place(r.rt2, 14, 10)
        | place(r.rt, 9, 5)
        | place(r.crm, 4, 1)
        | flag(r.direction, 0)
}

fn ldc(r: Ldc) -> u64
    ensures { result ≡ joined_from 0 (ldc_fields r) }
{
    conditional(0x06, r.il, r.cv, r.cond)
        | place(r.imm8, 19, 12)
        | place(r.rn, 9, 5)
        | flag(r.offset, 4)
        | place(r.am, 3, 1)
        | flag(r.direction, 0)
}

fn simd(r: Simd) -> u64
    ensures { result ≡ joined_from 0 (simd_fields r) }
{
    conditional(0x07, r.il, r.cv, r.cond)
}

pub fn call(r: Call) -> u64
    ensures { result ≡ joined_from 0 (call_fields r) }
{
    head_of(r.class, r.il) | place(r.imm16, 15, 0)
}

pub fn smc(r: Smc) -> u64
    ensures { result ≡ joined_from 0 (smc_fields r) }
{
    conditional(0x13, r.il, r.cv, r.cond) | flag(r.ccknownpass, 19)
}

fn instruction_abort(r: InstructionAbort) -> u64
    ensures { result ≡ joined_from 0 (instruction_abort_fields r) }
{
    head_of(0x20, r.il)
        | place(r.set, 12, 11)
        | flag(r.fnv, 10)
        | flag(r.ea, 9)
        | flag(r.s1ptw, 7)
        | place(r.code, 5, 0)
}

fn data_abort(r: DataAbort) -> u64
    ensures { result ≡ joined_from 0 (data_abort_fields r) }
{
    head_of(0x24, r.il)
        | flag(r.isv, 24)
        | place(r.sas, 23, 22)
        | flag(r.sse, 21)
        | place(r.srt, 20, 16)
        | flag(r.sf, 15)
        | flag(r.ar, 14)
        | place(r.set, 12, 11)
        | flag(r.fnv, 10)
        | flag(r.ea, 9)
        | flag(r.cm, 8)
        | flag(r.s1ptw, 7)
        | flag(r.wnr, 6)
        | place(r.code, 5, 0)
}

fn debug(r: Debug) -> u64
    ensures { result ≡ joined_from 0 (debug_fields r) }
{
    head_of(r.class, r.il) | place(DEBUG_CODE, 5, 0)
}

fn step(r: Step) -> u64
    ensures { result ≡ joined_from 0 (step_fields r) }
{
    head_of(0x32, r.il) | flag(r.isv, 24) | flag(r.ex, 6) | place(DEBUG_CODE, 5, 0)
}

fn watchpoint(r: Watchpoint) -> u64
    ensures { result ≡ joined_from 0 (watchpoint_fields r) }
{
    head_of(0x34, r.il) | flag(r.cm, 8) | flag(r.wnr, 6) | place(DEBUG_CODE, 5, 0)
}

fn serror(r: SError) -> u64
    ensures { result ≡ joined_from 0 (serror_fields r) }
{
    head_of(0x2F, r.il) | place(r.aet, 12, 10) | flag(r.ea, 9) | place(r.code, 5, 0)
}

fn system(r: System) -> u64
    ensures { result ≡ joined_from 0 (system_fields r) }
{
    head_of(0x18, r.il)
        | place(r.op0, 21, 20)
        | place(r.op2, 19, 17)
        | place(r.op1, 16, 14)
        | place(r.crn, 13, 10)
        | place(r.rt, 9, 5)
        | place(r.crm, 4, 1)
        | flag(r.direction, 0)
}

// The whole record. Where its fields fit, this is the word of its layout.
pub fn joined(r: Record) -> u64
    ensures { result ≡ joined_from 0 (fields_of r) }
{
    match r {
        Record::Plain(fields) => plain(fields),
        Record::Wfx(fields) => wfx(fields),
        Record::Mcr(fields) => mcr(fields),
        Record::Mcrr(fields) => mcrr(fields),
        Record::Ldc(fields) => ldc(fields),
        Record::Simd(fields) => simd(fields),
        Record::Call(fields) => call(fields),
        Record::Smc(fields) => smc(fields),
        Record::InstructionAbort(fields) => instruction_abort(fields),
        Record::DataAbort(fields) => data_abort(fields),
        Record::Debug(fields) => debug(fields),
        Record::Step(fields) => step(fields),
        Record::Watchpoint(fields) => watchpoint(fields),
        Record::SError(fields) => serror(fields),
        Record::System(fields) => system(fields),
    }
}
