// A record of the long form as sixteen words, for callers that have no enums: its kind's number, its fields in the order of its struct, a
// flag as 0 or 1, and zeros after them.
#![tactic(auto)]

ghost use Rattle.std.specs.Prelude.{◌≡◌, ◌-◌, ◌∷◌, ◌++◌, take};
ghost use Rattle.record_words.specs.Words.{zeros, plain_words, wfx_words, mcr_words, mcrr_words, ldc_words, simd_words, call_words, smc_words};
ghost use Rattle.record_words.specs.Words.{instruction_abort_words, data_abort_words, debug_words, step_words, watchpoint_words};
ghost use Rattle.record_words.specs.Words.{serror_words, system_words, words_of};

use record::{
    Call, DataAbort, Debug, InstructionAbort, Ldc, Mcr, Mcrr, Plain, Record, SError, Simd, Smc,
    Step, System, Watchpoint, Wfx,
};

// The number of a kind, its fields, and zeros up to sixteen. Fields past the fifteenth have no place, and are left out.
// Kept: a kind is a number in words, by the C interface.
pub fn padded<const N: usize>(kind: u32, fields: [u32; N]) -> [u32; 16]
    ensures { result ≡ kind ∷ take 15 fields.entry ++ zeros (15 - N) }
{
    let mut words = [0; 16];
    words[0] = kind;
    for i in 0..N.min(15) {
        words[1 + i] = fields[i];
    }
    words
}

pub fn plain_words(x: Plain) -> [u32; 16]
    ensures { result ≡ plain_words x }
{
    padded(0, [x.class, x.il as u32])
}

pub fn wfx_words(x: Wfx) -> [u32; 16]
    ensures { result ≡ wfx_words x }
{
    padded(1, [x.il as u32, x.cv as u32, x.cond, x.ti as u32])
}

fn mcr_words(x: Mcr) -> [u32; 16]
    ensures { result ≡ mcr_words x }
{
    padded(
        2,
        [
            x.class,
            x.il as u32,
            x.cv as u32,
            x.cond,
            x.opc2,
            x.opc1,
            x.crn,
            x.rt,
            x.crm,
            x.direction as u32,
        ],
    )
}

fn mcrr_words(x: Mcrr) -> [u32; 16]
    ensures { result ≡ mcrr_words x }
{
    padded(
        3,
        [
            x.class,
            x.il as u32,
            x.cv as u32,
            x.cond,
            x.opc1,
            x.rt2,
            x.rt,
            x.crm,
            x.direction as u32,
        ],
    )
}

fn ldc_words(x: Ldc) -> [u32; 16]
    ensures { result ≡ ldc_words x }
{
    padded(
        4,
        [
            x.il as u32,
            x.cv as u32,
            x.cond,
            x.imm8,
            x.rn,
            x.offset as u32,
            x.am,
            x.direction as u32,
        ],
    )
}

fn simd_words(x: Simd) -> [u32; 16]
    ensures { result ≡ simd_words x }
{
    padded(5, [x.il as u32, x.cv as u32, x.cond])
}

pub fn call_words(x: Call) -> [u32; 16]
    ensures { result ≡ call_words x }
{
    padded(6, [x.class, x.il as u32, x.imm16])
}

pub fn smc_words(x: Smc) -> [u32; 16]
    ensures { result ≡ smc_words x }
{
    padded(7, [x.il as u32, x.cv as u32, x.cond, x.ccknownpass as u32])
}

fn instruction_abort_words(x: InstructionAbort) -> [u32; 16]
    ensures { result ≡ instruction_abort_words x }
{
    padded(
        8,
        [
            x.il as u32,
            x.set,
            x.fnv as u32,
            x.ea as u32,
            x.s1ptw as u32,
            x.code,
        ],
    )
}

fn data_abort_words(x: DataAbort) -> [u32; 16]
    ensures { result ≡ data_abort_words x }
{
    padded(
        9,
        [
            x.il as u32,
            x.isv as u32,
            x.sas,
            x.sse as u32,
            x.srt,
            x.sf as u32,
            x.ar as u32,
            x.set,
            x.fnv as u32,
            x.ea as u32,
            x.cm as u32,
            x.s1ptw as u32,
            x.wnr as u32,
            x.code,
        ],
    )
}

fn debug_words(x: Debug) -> [u32; 16]
    ensures { result ≡ debug_words x }
{
    padded(10, [x.class, x.il as u32])
}

fn step_words(x: Step) -> [u32; 16]
    ensures { result ≡ step_words x }
{
    padded(11, [x.il as u32, x.isv as u32, x.ex as u32])
}

fn watchpoint_words(x: Watchpoint) -> [u32; 16]
    ensures { result ≡ watchpoint_words x }
{
    padded(12, [x.il as u32, x.cm as u32, x.wnr as u32])
}

fn serror_words(x: SError) -> [u32; 16]
    ensures { result ≡ serror_words x }
{
    padded(13, [x.il as u32, x.aet, x.ea as u32, x.code])
}

fn system_words(x: System) -> [u32; 16]
    ensures { result ≡ system_words x }
{
    padded(
        14,
        [
            x.il as u32,
            x.op0,
            x.op2,
            x.op1,
            x.crn,
            x.rt,
            x.crm,
            x.direction as u32,
        ],
    )
}

pub fn words_of(r: Record) -> [u32; 16]
    ensures { result ≡ words_of r }
{
    match r {
        Record::Plain(x) => plain_words(x),
        Record::Wfx(x) => wfx_words(x),
        Record::Mcr(x) => mcr_words(x),
        Record::Mcrr(x) => mcrr_words(x),
        Record::Ldc(x) => ldc_words(x),
        Record::Simd(x) => simd_words(x),
        Record::Call(x) => call_words(x),
        Record::Smc(x) => smc_words(x),
        Record::InstructionAbort(x) => instruction_abort_words(x),
        Record::DataAbort(x) => data_abort_words(x),
        Record::Debug(x) => debug_words(x),
        Record::Step(x) => step_words(x),
        Record::Watchpoint(x) => watchpoint_words(x),
        Record::SError(x) => serror_words(x),
        Record::System(x) => system_words(x),
    }
}
