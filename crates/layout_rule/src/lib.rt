// The rules that ask nothing of the edition: fields that fit their bits, and what the layout and the abort rules allow. The kinds without a
// register are the short form's too.
#![tactic(auto)]

ghost use Rattle.std.specs.Prelude.{◌≡◌, ◌&&◌};
ghost use Rattle.bits.specs.Layout.{fitting};
ghost use Rattle.layout.specs.Fields.{plain_fields, wfx_fields, mcr_fields, mcrr_fields, ldc_fields, simd_fields, call_fields, smc_fields};
ghost use Rattle.layout.specs.Fields.{instruction_abort_fields, data_abort_fields, debug_fields, step_fields, watchpoint_fields, serror_fields};
ghost use Rattle.layout.specs.Fields.{system_fields, fields_of};
ghost use Rattle.iss.specs.Rule.{condition_rule, direction_rule, immediate_rule, addressing_rule, passed_rule, abort_rule, maintenance_rule};
ghost use Rattle.layout_rule.specs.Rule.{condition_from, no_syndrome_rule, aarch32_access, valid_syndrome_rule, syndrome_rule, extension_from};
ghost use Rattle.layout_rule.specs.Rule.{data_rule, step_rule, error_rule, layout_rule};

use record::{
    Call, DataAbort, Debug, InstructionAbort, Ldc, Mcr, Mcrr, Origin, Plain, Record, SError, Simd,
    Smc, Step, System, Watchpoint, Wfx, from_aarch64,
};

pub fn plain(r: Plain) -> bool
    ensures { result ≡ fitting (plain_fields r) }
{
    r.class < 64
}

// AArch64 code has no condition, and reports that it always passed.
fn condition_from(origin: Origin, cv: bool, cond: u32) -> bool
    ensures { result ≡ condition_from origin cv cond }
{
    (!from_aarch64(origin) | cv & (cond == 0b1110)) & iss::condition_rule(cv, cond)
}

pub fn wfx(origin: Origin, r: Wfx) -> bool
    ensures { result ≡ (fitting (wfx_fields r) && condition_from origin r.cv r.cond) }
{
    (r.cond < 16) & condition_from(origin, r.cv, r.cond)
}

// Kept: a function for each kind, since each kind has fields of its own.
fn mcr(r: Mcr) -> bool
    ensures { result ≡ (fitting (mcr_fields r) && (condition_rule r.cv r.cond && direction_rule r.class r.direction)) }
{
    (r.class < 64)
        & (r.cond < 16)
        & (r.opc2 < 8)
        & (r.opc1 < 8)
        & (r.crn < 16)
        & (r.rt < 32)
        & (r.crm < 16)
        & (iss::condition_rule(r.cv, r.cond) & iss::direction_rule(r.class, r.direction))
}

fn mcrr(r: Mcrr) -> bool
    ensures { result ≡ (fitting (mcrr_fields r) && (condition_rule r.cv r.cond && direction_rule r.class r.direction)) }
{
    (r.class < 64)
        & (r.cond < 16)
        & (r.opc1 < 16)
        & (r.rt2 < 32)
        & (r.rt < 32)
        & (r.crm < 16)
        & (iss::condition_rule(r.cv, r.cond) & iss::direction_rule(r.class, r.direction))
}

fn ldc(r: Ldc) -> bool
    ensures { result ≡ (fitting (ldc_fields r) && (condition_rule r.cv r.cond && addressing_rule r.am r.direction)) }
{
    (r.cond < 16)
        & (r.imm8 < 256)
        & (r.rn < 32)
        & (r.am < 8)
        & (iss::condition_rule(r.cv, r.cond) & iss::addressing_rule(r.am, r.direction))
}

fn simd(origin: Origin, r: Simd) -> bool
    ensures { result ≡ (fitting (simd_fields r) && condition_from origin r.cv r.cond) }
{
    (r.cond < 16) & condition_from(origin, r.cv, r.cond)
}

pub fn call(r: Call) -> bool
    ensures { result ≡ (fitting (call_fields r) && immediate_rule r.il r.imm16) }
{
    (r.class < 64) & (r.imm16 < 0x1_0000) & iss::immediate_rule(r.il, r.imm16)
}

pub fn smc(r: Smc) -> bool
    ensures { result ≡ (fitting (smc_fields r) && (condition_rule r.cv r.cond && passed_rule r.ccknownpass r.cv r.cond)) }
{
    (r.cond < 16)
        & (iss::condition_rule(r.cv, r.cond) & iss::passed_rule(r.ccknownpass, r.cv, r.cond))
}

fn instruction_abort(r: InstructionAbort) -> bool
    ensures { result ≡ (fitting (instruction_abort_fields r) && abort_rule r.fnv r.ea r.s1ptw r.code) }
{
    (r.set < 4) & (r.code < 64) & iss::abort_rule(r.fnv, r.ea, r.s1ptw, r.code)
}

// ISV 0: nothing is told of the instruction.
fn no_syndrome_rule(r: DataAbort) -> bool
    ensures { result ≡ no_syndrome_rule r }
{
    (r.sas == 0) & !r.sse & (r.srt == 0) & !r.sf & !r.ar
}

// A load or store of one register that an AArch32 guest can name; 15 and 31 are none of its numbers.
fn aarch32_access(r: DataAbort) -> bool
    ensures { result ≡ aarch32_access r }
{
    !r.sf & (r.sas < 3) & !matches!(r.srt, 15 | 31)
}

// ISV 1: a load or store that the guest has, and no cache maintenance or table walk.
fn valid_syndrome_rule(origin: Origin, r: DataAbort) -> bool
    ensures { result ≡ valid_syndrome_rule origin r }
{
    (from_aarch64(origin) | aarch32_access(r)) & !r.cm & !r.s1ptw
}

// What ISV 0 or ISV 1 needs.
fn syndrome_rule(origin: Origin, r: DataAbort) -> bool
    ensures { result ≡ syndrome_rule origin r }
{
    (r.isv | no_syndrome_rule(r)) & (!r.isv | valid_syndrome_rule(origin, r))
}

// AArch64 also has a load of a word that is sign-extended, to 64 bits.
fn extension_from(origin: Origin, r: DataAbort) -> bool
    ensures { result ≡ extension_from origin r }
{
    from_aarch64(origin) & r.sf & (r.sas == 2) & !r.wnr | iss::extension_rule(r.sse, r.sas, r.wnr)
}

fn data_rule(origin: Origin, r: DataAbort) -> bool
    ensures { result ≡ data_rule origin r }
{
    syndrome_rule(origin, r) & extension_from(origin, r) & iss::maintenance_rule(r.cm, r.wnr)
}

fn data_abort(origin: Origin, r: DataAbort) -> bool
    ensures { result ≡ (fitting (data_abort_fields r) && (abort_rule r.fnv r.ea r.s1ptw r.code && data_rule origin r)) }
{
    (r.sas < 4)
        & (r.srt < 32)
        & (r.set < 4)
        & (r.code < 64)
        & (iss::abort_rule(r.fnv, r.ea, r.s1ptw, r.code) & data_rule(origin, r))
}

fn debug(r: Debug) -> bool
    ensures { result ≡ fitting (debug_fields r) }
{
    r.class < 64
}

// EX tells nothing without ISV.
fn step(r: Step) -> bool
    ensures { result ≡ (fitting (step_fields r) && step_rule r.isv r.ex) }
{
    !r.ex | r.isv
}

fn watchpoint(r: Watchpoint) -> bool
    ensures { result ≡ (fitting (watchpoint_fields r) && maintenance_rule r.cm r.wnr) }
{
    iss::maintenance_rule(r.cm, r.wnr)
}

// An uncategorized error tells nothing more. An asynchronous one tells its type; 4, 5 and 7 are reserved.
fn error_rule(aet: u32, ea: bool, code: u32) -> bool
    ensures { result ≡ error_rule aet ea code }
{
    (code == 0) & (aet == 0) & !ea | (code == 0x11) & matches!(aet, 0..=3 | 6)
}

fn serror(r: SError) -> bool
    ensures { result ≡ (fitting (serror_fields r) && error_rule r.aet r.ea r.code) }
{
    (r.aet < 8) & (r.code < 64) & error_rule(r.aet, r.ea, r.code)
}

// Any MSR, MRS or System instruction, of either direction.
fn system(r: System) -> bool
    ensures { result ≡ fitting (system_fields r) }
{
    (r.op0 < 4) & (r.op2 < 8) & (r.op1 < 8) & (r.crn < 16) & (r.rt < 32) & (r.crm < 16)
}

// Whether a record's fields fit and agree with each other and with the origin.
pub fn layout_rule(origin: Origin, r: Record) -> bool
    ensures { result ≡ (fitting (fields_of r) && layout_rule origin r) }
{
    match r {
        Record::Plain(x) => plain(x),
        Record::Wfx(x) => wfx(origin, x),
        Record::Mcr(x) => mcr(x),
        Record::Mcrr(x) => mcrr(x),
        Record::Ldc(x) => ldc(x),
        Record::Simd(x) => simd(origin, x),
        Record::Call(x) => call(x),
        Record::Smc(x) => smc(x),
        Record::InstructionAbort(x) => instruction_abort(x),
        Record::DataAbort(x) => data_abort(origin, x),
        Record::Debug(x) => debug(x),
        Record::Step(x) => step(x),
        Record::Watchpoint(x) => watchpoint(x),
        Record::SError(x) => serror(x),
        Record::System(x) => system(x),
    }
}
