// The record of the long form whose words some words are. Others are the words of none, and are taken for a record that no edition has.
#![tactic(auto)]

ghost use Rattle.std.specs.Prelude.{◌≡◌};
ghost use Rattle.record_of_words.specs.Reading.{plain_in, wfx_in, mcr_in, mcrr_in, ldc_in, simd_in, call_in, smc_in, instruction_abort_in};
ghost use Rattle.record_of_words.specs.Reading.{data_abort_in, debug_in, step_in, watchpoint_in, serror_in, system_in, no_record};
ghost use Rattle.record_of_words.specs.Reading.{record_by, same_below, record_of};

use record::{
    Call, DataAbort, Debug, InstructionAbort, Ldc, Mcr, Mcrr, Plain, Record, SError, Simd, Smc,
    Step, System, Watchpoint, Wfx,
};
use record_words::words_of;

// Kept: each kind of record has its own fields, by name at their places; no two of these functions make the same struct.
pub fn plain_in(words: [u32; 16]) -> Plain
    ensures { result ≡ plain_in words }
{
    Plain {
        class: words[1],
        il: words[2] == 1,
    }
}

pub fn wfx_in(words: [u32; 16]) -> Wfx
    ensures { result ≡ wfx_in words }
{
    Wfx {
        il: words[1] == 1,
        cv: words[2] == 1,
        cond: words[3],
        ti: words[4] == 1,
    }
}

fn mcr_in(words: [u32; 16]) -> Mcr
    ensures { result ≡ mcr_in words }
{
    Mcr {
        class: words[1],
        il: words[2] == 1,
        cv: words[3] == 1,
        cond: words[4],
        opc2: words[5],
        opc1: words[6],
        crn: words[7],
        rt: words[8],
        crm: words[9],
        direction: words[10] == 1,
    }
}

fn mcrr_in(words: [u32; 16]) -> Mcrr
    ensures { result ≡ mcrr_in words }
{
    Mcrr {
        class: words[1],
        il: words[2] == 1,
        cv: words[3] == 1,
        cond: words[4],
        opc1: words[5],
        rt2: words[6],
        rt: words[7],
        crm: words[8],
        direction: words[9] == 1,
    }
}

fn ldc_in(words: [u32; 16]) -> Ldc
    ensures { result ≡ ldc_in words }
{
    Ldc {
        il: words[1] == 1,
        cv: words[2] == 1,
        cond: words[3],
        imm8: words[4],
        rn: words[5],
        offset: words[6] == 1,
        am: words[7],
        direction: words[8] == 1,
    }
}

fn simd_in(words: [u32; 16]) -> Simd
    ensures { result ≡ simd_in words }
{
    Simd {
        il: words[1] == 1,
        cv: words[2] == 1,
        cond: words[3],
    }
}

pub fn call_in(words: [u32; 16]) -> Call
    ensures { result ≡ call_in words }
{
    Call {
        class: words[1],
        il: words[2] == 1,
        imm16: words[3],
    }
}

pub fn smc_in(words: [u32; 16]) -> Smc
    ensures { result ≡ smc_in words }
{
    Smc {
        il: words[1] == 1,
        cv: words[2] == 1,
        cond: words[3],
        ccknownpass: words[4] == 1,
    }
}

fn instruction_abort_in(words: [u32; 16]) -> InstructionAbort
    ensures { result ≡ instruction_abort_in words }
{
    InstructionAbort {
        il: words[1] == 1,
        set: words[2],
        fnv: words[3] == 1,
        ea: words[4] == 1,
        s1ptw: words[5] == 1,
        code: words[6],
    }
}

fn data_abort_in(words: [u32; 16]) -> DataAbort
    ensures { result ≡ data_abort_in words }
{
    DataAbort {
        il: words[1] == 1,
        isv: words[2] == 1,
        sas: words[3],
        sse: words[4] == 1,
        srt: words[5],
        sf: words[6] == 1,
        ar: words[7] == 1,
        set: words[8],
        fnv: words[9] == 1,
        ea: words[10] == 1,
        cm: words[11] == 1,
        s1ptw: words[12] == 1,
        wnr: words[13] == 1,
        code: words[14],
    }
}

fn debug_in(words: [u32; 16]) -> Debug
    ensures { result ≡ debug_in words }
{
    Debug {
        class: words[1],
        il: words[2] == 1,
    }
}

fn step_in(words: [u32; 16]) -> Step
    ensures { result ≡ step_in words }
{
    Step {
        il: words[1] == 1,
        isv: words[2] == 1,
        ex: words[3] == 1,
    }
}

fn watchpoint_in(words: [u32; 16]) -> Watchpoint
    ensures { result ≡ watchpoint_in words }
{
    Watchpoint {
        il: words[1] == 1,
        cm: words[2] == 1,
        wnr: words[3] == 1,
    }
}

fn serror_in(words: [u32; 16]) -> SError
    ensures { result ≡ serror_in words }
{
    SError {
        il: words[1] == 1,
        aet: words[2],
        ea: words[3] == 1,
        code: words[4],
    }
}

fn system_in(words: [u32; 16]) -> System
    ensures { result ≡ system_in words }
{
    System {
        il: words[1] == 1,
        op0: words[2],
        op2: words[3],
        op1: words[4],
        crn: words[5],
        rt: words[6],
        crm: words[7],
        direction: words[8] == 1,
    }
}

// Class 64 is none: it has more bits than EC.
fn no_record() -> Record
    ensures { result ≡ no_record }
{
    Record::Plain(Plain {
        class: 64,
        il: true,
    })
}

// The record of a kind, from its fields' places.
// Kept: a kind is a number here, as the words from C have it.
#[tactic(auto, unfolding(crate::specs::Reading::record_by))]
fn record_by(kind: u32, words: [u32; 16]) -> Record
    ensures { result ≡ record_by kind words }
{
    match kind {
        0 => Record::Plain(plain_in(words)),
        1 => Record::Wfx(wfx_in(words)),
        2 => Record::Mcr(mcr_in(words)),
        3 => Record::Mcrr(mcrr_in(words)),
        4 => Record::Ldc(ldc_in(words)),
        5 => Record::Simd(simd_in(words)),
        6 => Record::Call(call_in(words)),
        7 => Record::Smc(smc_in(words)),
        8 => Record::InstructionAbort(instruction_abort_in(words)),
        9 => Record::DataAbort(data_abort_in(words)),
        10 => Record::Debug(debug_in(words)),
        11 => Record::Step(step_in(words)),
        12 => Record::Watchpoint(watchpoint_in(words)),
        13 => Record::SError(serror_in(words)),
        14 => Record::System(system_in(words)),
        _ => no_record(),
    }
}

// Whether sixteen words are the same as others.
// Kept: std's `==` of arrays goes by structs that hold a pointer, which .ci/module doesn't take.
pub fn same(a: [u32; 16], b: [u32; 16]) -> bool
    ensures { result ≡ same_below 16 a b }
{
    (a[0] == b[0])
        & (a[1] == b[1])
        & (a[2] == b[2])
        & (a[3] == b[3])
        & (a[4] == b[4])
        & (a[5] == b[5])
        & (a[6] == b[6])
        & (a[7] == b[7])
        & (a[8] == b[8])
        & (a[9] == b[9])
        & (a[10] == b[10])
        & (a[11] == b[11])
        & (a[12] == b[12])
        & (a[13] == b[13])
        & (a[14] == b[14])
        & (a[15] == b[15])
}

// The record whose words these are.
#[tactic(auto, unfolding(crate::specs::Reading::record_of))]
pub fn record_of(words: [u32; 16]) -> Record
    ensures { result ≡ record_of words }
{
    let r = record_by(words[0], words);
    if same(words_of(r), words) {
        r
    } else {
        no_record()
    }
}
