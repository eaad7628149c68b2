// A word taken apart by the layout of its class. Nothing is judged here. The kinds without a register are the short form's too.
ghost use Rattle.std.specs.Prelude.{◌≡◌};
ghost use Rattle.record.specs.Split.{plain_at, wfx_at, mcr_at, mcrr_at, ldc_at, simd_at, call_at, smc_at, instruction_abort_at, data_abort_at};
ghost use Rattle.record.specs.Split.{debug_at, step_at, watchpoint_at, serror_at, system_at, record_of, record_at};

use super::kinds::{
    Call, DataAbort, Debug, InstructionAbort, Ldc, Mcr, Mcrr, Plain, Record, SError, Simd, Smc,
    Step, System, Watchpoint, Wfx,
};
use bits::{bit, field32};
use registers::Esr;

pub fn plain_at(class: u32, word: u64) -> Plain
    ensures { result ≡ plain_at class word }
{
    Plain {
        class,
        il: bit(word, 25),
    }
}

pub fn wfx_at(word: u64) -> Wfx
    ensures { result ≡ wfx_at word }
{
    Wfx {
        il: bit(word, 25),
        cv: bit(word, 24),
        cond: field32(word, 23, 20),
        ti: bit(word, 0),
    }
}

fn mcr_at(class: u32, word: u64) -> Mcr
    ensures { result ≡ mcr_at class word }
{
    Mcr {
        class,
        il: bit(word, 25),
        cv: bit(word, 24),
        cond: field32(word, 23, 20),
        opc2: field32(word, 19, 17),
        opc1: field32(word, 16, 14),
        crn: field32(word, 13, 10),
        rt: field32(word, 9, 5),
        crm: field32(word, 4, 1),
        direction: bit(word, 0),
    }
}

fn mcrr_at(class: u32, word: u64) -> Mcrr
    ensures { result ≡ mcrr_at class word }
{
    Mcrr {
        class,
        il: bit(word, 25),
        cv: bit(word, 24),
        cond: field32(word, 23, 20),
        opc1: field32(word, 19, 16),
        rt2: field32(word, 14, 10),
        rt: field32(word, 9, 5),
        crm: field32(word, 4, 1),
        direction: bit(word, 0),
    }
}

fn ldc_at(word: u64) -> Ldc
    ensures { result ≡ ldc_at word }
{
    Ldc {
        il: bit(word, 25),
        cv: bit(word, 24),
        cond: field32(word, 23, 20),
        imm8: field32(word, 19, 12),
        rn: field32(word, 9, 5),
        offset: bit(word, 4),
        am: field32(word, 3, 1),
        direction: bit(word, 0),
    }
}

fn simd_at(word: u64) -> Simd
    ensures { result ≡ simd_at word }
{
    Simd {
        il: bit(word, 25),
        cv: bit(word, 24),
        cond: field32(word, 23, 20),
    }
}

pub fn call_at(class: u32, word: u64) -> Call
    ensures { result ≡ call_at class word }
{
    Call {
        class,
        il: bit(word, 25),
        imm16: field32(word, 15, 0),
    }
}

pub fn smc_at(word: u64) -> Smc
    ensures { result ≡ smc_at word }
{
    Smc {
        il: bit(word, 25),
        cv: bit(word, 24),
        cond: field32(word, 23, 20),
        ccknownpass: bit(word, 19),
    }
}

fn instruction_abort_at(word: u64) -> InstructionAbort
    ensures { result ≡ instruction_abort_at word }
{
    InstructionAbort {
        il: bit(word, 25),
        set: field32(word, 12, 11),
        fnv: bit(word, 10),
        ea: bit(word, 9),
        s1ptw: bit(word, 7),
        code: field32(word, 5, 0),
    }
}

fn data_abort_at(word: u64) -> DataAbort
    ensures { result ≡ data_abort_at word }
{
    DataAbort {
        il: bit(word, 25),
        isv: bit(word, 24),
        sas: field32(word, 23, 22),
        sse: bit(word, 21),
        srt: field32(word, 20, 16),
        sf: bit(word, 15),
        ar: bit(word, 14),
        set: field32(word, 12, 11),
        fnv: bit(word, 10),
        ea: bit(word, 9),
        cm: bit(word, 8),
        s1ptw: bit(word, 7),
        wnr: bit(word, 6),
        code: field32(word, 5, 0),
    }
}

fn debug_at(class: u32, word: u64) -> Debug
    ensures { result ≡ debug_at class word }
{
    Debug {
        class,
        il: bit(word, 25),
    }
}

fn step_at(word: u64) -> Step
    ensures { result ≡ step_at word }
{
    Step {
        il: bit(word, 25),
        isv: bit(word, 24),
        ex: bit(word, 6),
    }
}

fn watchpoint_at(word: u64) -> Watchpoint
    ensures { result ≡ watchpoint_at word }
{
    Watchpoint {
        il: bit(word, 25),
        cm: bit(word, 8),
        wnr: bit(word, 6),
    }
}

fn serror_at(word: u64) -> SError
    ensures { result ≡ serror_at word }
{
    SError {
        il: bit(word, 25),
        aet: field32(word, 12, 10),
        ea: bit(word, 9),
        code: field32(word, 5, 0),
    }
}

fn system_at(word: u64) -> System
    ensures { result ≡ system_at word }
{
    System {
        il: bit(word, 25),
        op0: field32(word, 21, 20),
        op2: field32(word, 19, 17),
        op1: field32(word, 16, 14),
        crn: field32(word, 13, 10),
        rt: field32(word, 9, 5),
        crm: field32(word, 4, 1),
        direction: bit(word, 0),
    }
}

// The record at a word's bits, by the layout of a class. A class with no layout reads as one without fields, which its kind lacks.
#[tactic(auto, unfolding(crate::specs::Split::record_of))]
fn record_of(class: u32, word: u64) -> Record
    ensures { result ≡ record_of class word }
{
    match class {
        0x01 => Record::Wfx(wfx_at(word)),
        0x03 | 0x05 | 0x08 => Record::Mcr(mcr_at(class, word)),
        0x04 | 0x0C => Record::Mcrr(mcrr_at(class, word)),
        0x06 => Record::Ldc(ldc_at(word)),
        0x07 => Record::Simd(simd_at(word)),
        0x11 | 0x15 | 0x17 | 0x38 => Record::Call(call_at(class, word)),
        0x12 | 0x16 => Record::Call(call_at(class, word)),
        0x13 => Record::Smc(smc_at(word)),
        0x20 => Record::InstructionAbort(instruction_abort_at(word)),
        0x24 => Record::DataAbort(data_abort_at(word)),
        0x30 | 0x3A => Record::Debug(debug_at(class, word)),
        0x32 => Record::Step(step_at(word)),
        0x34 => Record::Watchpoint(watchpoint_at(word)),
        0x2F => Record::SError(serror_at(word)),
        0x18 => Record::System(system_at(word)),
        _ => Record::Plain(plain_at(class, word)),
    }
}

// The record at a word's bits, by the layout of the word's own class.
pub fn record_at(esr: Esr) -> Record
    ensures { result ≡ record_at esr.0 }
{
    let word = esr.0;
    record_of(field32(word, 31, 26), word)
}
