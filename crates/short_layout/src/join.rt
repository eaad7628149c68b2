// A record put together into a word, each field cut to its bits. Nothing is judged here.
ghost use Rattle.std.specs.Prelude.{◌≡◌};
ghost use Rattle.bits.specs.Inner.{joined_from};
ghost use Rattle.short_layout.specs.Fields.{mcr_fields, mcrr_fields, ldc_fields, simd_fields, instruction_abort_fields, data_abort_fields};
ghost use Rattle.short_layout.specs.Fields.{fields_of};

use bits::{flag, place};
use layout::join;
use layout::join::{conditional, head_of};
use short_record::{DataAbort, InstructionAbort, Ldc, Mcr, Mcrr, Record, Simd};

// Kept: mcr, mcrr and ldc are layout's but for the width of a register, of structs of their own (C-11.20).
fn mcr(r: Mcr) -> u64
    ensures { result ≡ joined_from 0 (mcr_fields r) }
{
    conditional(r.class, r.il, r.cv, r.cond)
        | place(r.opc2, 19, 17)
        | place(r.opc1, 16, 14)
        | place(r.crn, 13, 10)
        | place(r.rt, 8, 5)
        | place(r.crm, 4, 1)
        | flag(r.direction, 0)
}

fn mcrr(r: Mcrr) -> u64
    ensures { result ≡ joined_from 0 (mcrr_fields r) }
{
    conditional(r.class, r.il, r.cv, r.cond)
        | place(r.opc1, 19, 16)
        | place(r.rt2, 13, 10)
        | place(r.rt, 8, 5)
        | place(r.crm, 4, 1)
        | flag(r.direction, 0)
}

fn ldc(r: Ldc) -> u64
    ensures { result ≡ joined_from 0 (ldc_fields r) }
{
    conditional(0x06, r.il, r.cv, r.cond)
        | place(r.imm8, 19, 12)
        | place(r.rn, 8, 5)
        | flag(r.offset, 4)
        | place(r.am, 3, 1)
        | flag(r.direction, 0)
}

fn simd(r: Simd) -> u64
    ensures { result ≡ joined_from 0 (simd_fields r) }
{
    conditional(0x07, r.il, r.cv, r.cond) | flag(r.ta, 5) | place(r.coproc, 3, 0)
}

fn instruction_abort(r: InstructionAbort) -> u64
    ensures { result ≡ joined_from 0 (instruction_abort_fields r) }
{
    head_of(0x20, r.il) | flag(r.fnv, 10) | flag(r.ea, 9) | flag(r.s1ptw, 7) | place(r.code, 5, 0)
}

fn data_abort(r: DataAbort) -> u64
    ensures { result ≡ joined_from 0 (data_abort_fields r) }
{
    head_of(0x24, r.il)
        | flag(r.isv, 24)
        | place(r.sas, 23, 22)
        | flag(r.sse, 21)
        | place(r.srt, 19, 16)
        | flag(r.ar, 14)
        | place(r.aet, 11, 10)
        | flag(r.ea, 9)
        | flag(r.cm, 8)
        | flag(r.s1ptw, 7)
        | flag(r.wnr, 6)
        | place(r.code, 5, 0)
}

// The whole record. Where its fields fit, this is the word of its layout.
pub fn joined(r: Record) -> u64
    ensures { result ≡ joined_from 0 (fields_of r) }
{
    match r {
        Record::Plain(fields) => join::plain(fields),
        Record::Wfx(fields) => join::wfx(fields),
        Record::Mcr(fields) => mcr(fields),
        Record::Mcrr(fields) => mcrr(fields),
        Record::Ldc(fields) => ldc(fields),
        Record::Simd(fields) => simd(fields),
        Record::Call(fields) => join::call(fields),
        Record::Smc(fields) => join::smc(fields),
        Record::InstructionAbort(fields) => instruction_abort(fields),
        Record::DataAbort(fields) => data_abort(fields),
    }
}
