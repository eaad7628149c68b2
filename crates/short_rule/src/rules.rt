// The rules that ask nothing of the edition: fields that fit their bits, and what the layout and the abort rules allow.
ghost use Rattle.std.specs.Prelude.{◌≡◌, ◌&&◌};
ghost use Rattle.bits.specs.Layout.{fitting};
ghost use Rattle.iss.specs.Rule.{condition_rule, direction_rule, addressing_rule, abort_rule};
ghost use Rattle.short_layout.specs.Fields.{mcr_fields, mcrr_fields, ldc_fields, simd_fields, instruction_abort_fields, data_abort_fields};
ghost use Rattle.short_layout.specs.Fields.{fields_of};
ghost use Rattle.short_rule.specs.Rule.{coproc_rule, asynchronous, no_syndrome_rule, valid_syndrome_rule, syndrome_rule, asynchronous_rule};
ghost use Rattle.short_rule.specs.Rule.{data_rule, layout_rule};

use record::Origin;
use short_record::{DataAbort, InstructionAbort, Ldc, Mcr, Mcrr, Record, Simd};

// Kept: mcr, mcrr and ldc are layout_rule's but for the width of a register, of structs of their own (C-11.20).
fn mcr(r: Mcr) -> bool
    ensures { result ≡ (fitting (mcr_fields r) && (condition_rule r.cv r.cond && direction_rule r.class r.direction)) }
{
    (r.class < 64)
        & (r.cond < 16)
        & (r.opc2 < 8)
        & (r.opc1 < 8)
        & (r.crn < 16)
        & (r.rt < 16)
        & (r.crm < 16)
        & (iss::condition_rule(r.cv, r.cond) & iss::direction_rule(r.class, r.direction))
}

fn mcrr(r: Mcrr) -> bool
    ensures { result ≡ (fitting (mcrr_fields r) && (condition_rule r.cv r.cond && direction_rule r.class r.direction)) }
{
    (r.class < 64)
        & (r.cond < 16)
        & (r.opc1 < 16)
        & (r.rt2 < 16)
        & (r.rt < 16)
        & (r.crm < 16)
        & (iss::condition_rule(r.cv, r.cond) & iss::direction_rule(r.class, r.direction))
}

fn ldc(r: Ldc) -> bool
    ensures { result ≡ (fitting (ldc_fields r) && (condition_rule r.cv r.cond && addressing_rule r.am r.direction)) }
{
    (r.cond < 16)
        & (r.imm8 < 256)
        & (r.rn < 16)
        & (r.am < 8)
        & (iss::condition_rule(r.cv, r.cond) & iss::addressing_rule(r.am, r.direction))
}

// TA goes with coproc 1010, and no TA with 0.
pub fn coproc_rule(ta: bool, coproc: u32) -> bool
    ensures { result ≡ coproc_rule ta coproc }
{
    if ta { coproc == 0b1010 } else { coproc == 0 }
}

fn simd(r: Simd) -> bool
    ensures { result ≡ (fitting (simd_fields r) && (condition_rule r.cv r.cond && coproc_rule r.ta r.coproc)) }
{
    (r.cond < 16)
        & (r.coproc < 16)
        & (iss::condition_rule(r.cv, r.cond) & coproc_rule(r.ta, r.coproc))
}

fn instruction_abort(r: InstructionAbort) -> bool
    ensures { result ≡ (fitting (instruction_abort_fields r) && abort_rule r.fnv r.ea r.s1ptw r.code) }
{
    (r.code < 64) & iss::abort_rule(r.fnv, r.ea, r.s1ptw, r.code)
}

// An SError interrupt.
pub fn asynchronous(code: u32) -> bool
    ensures { result ≡ asynchronous code }
{
    matches!(code, 0x11 | 0x19)
}

// ISV 0: nothing is told of the instruction.
pub fn no_syndrome_rule(r: DataAbort) -> bool
    ensures { result ≡ no_syndrome_rule r }
{
    (r.sas == 0) & !r.sse & (r.srt == 0) & !r.ar
}

// ISV 1: a load or store of one register that isn't the PC.
fn valid_syndrome_rule(r: DataAbort) -> bool
    ensures { result ≡ valid_syndrome_rule r }
{
    (r.sas < 3) & !(r.srt == 15) & !r.cm & !r.s1ptw
}

// What ISV 0 or ISV 1 needs.
fn syndrome_rule(r: DataAbort) -> bool
    ensures { result ≡ syndrome_rule r }
{
    (r.isv | no_syndrome_rule(r)) & (!r.isv | valid_syndrome_rule(r))
}

// An asynchronous abort is of no cache maintenance instruction.
fn asynchronous_rule(r: DataAbort) -> bool
    ensures { result ≡ asynchronous_rule r }
{
    !asynchronous(r.code) | !r.cm
}

fn data_rule(r: DataAbort) -> bool
    ensures { result ≡ data_rule r }
{
    iss::external_rule(r.ea, r.code)
        & iss::walk_rule(r.s1ptw, r.code)
        & syndrome_rule(r)
        & asynchronous_rule(r)
        & iss::extension_rule(r.sse, r.sas, r.wnr)
        & iss::maintenance_rule(r.cm, r.wnr)
}

fn data_abort(r: DataAbort) -> bool
    ensures { result ≡ (fitting (data_abort_fields r) && data_rule r) }
{
    (r.sas < 4) & (r.srt < 16) & (r.aet < 4) & (r.code < 64) & data_rule(r)
}

// Whether a record's fields fit and agree with each other. The guest of a hypervisor in AArch32 is in AArch32 too.
pub fn layout_rule(r: Record) -> bool
    ensures { result ≡ (fitting (fields_of r) && layout_rule r) }
{
    match r {
        Record::Plain(x) => layout_rule::plain(x),
        Record::Wfx(x) => layout_rule::wfx(Origin::AArch32, x),
        Record::Mcr(x) => mcr(x),
        Record::Mcrr(x) => mcrr(x),
        Record::Ldc(x) => ldc(x),
        Record::Simd(x) => simd(x),
        Record::Call(x) => layout_rule::call(x),
        Record::Smc(x) => layout_rule::smc(x),
        Record::InstructionAbort(x) => instruction_abort(x),
        Record::DataAbort(x) => data_abort(x),
    }
}
