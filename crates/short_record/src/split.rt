// A word taken apart by the layout of its class. Nothing is judged here.
ghost use Rattle.std.specs.Prelude.{◌≡◌};
ghost use Rattle.short_record.specs.Split.{mcr_at, mcrr_at, ldc_at, simd_at, instruction_abort_at, data_abort_at, record_of, record_at};

use super::kinds::{DataAbort, InstructionAbort, Ldc, Mcr, Mcrr, Record, Simd};
use bits::{bit, field32};
use record::split;
use registers::Hsr;

// Kept: mcr_at, mcrr_at and ldc_at are record's but for the width of a register, of structs of their own (C-11.20).
fn mcr_at(class: u32, word: u64) -> Mcr
    ensures { result ≡ mcr_at class word }
{
    Mcr {
        class,
        il: bit(word, 25),
        cv: bit(word, 24),
        cond: field32(word, 23, 20),
        opc2: field32(word, 19, 17),
        opc1: field32(word, 16, 14),
        crn: field32(word, 13, 10),
        rt: field32(word, 8, 5),
        crm: field32(word, 4, 1),
        direction: bit(word, 0),
    }
}

fn mcrr_at(class: u32, word: u64) -> Mcrr
    ensures { result ≡ mcrr_at class word }
{
    Mcrr {
        class,
        il: bit(word, 25),
        cv: bit(word, 24),
        cond: field32(word, 23, 20),
        opc1: field32(word, 19, 16),
        rt2: field32(word, 13, 10),
        rt: field32(word, 8, 5),
        crm: field32(word, 4, 1),
        direction: bit(word, 0),
    }
}

fn ldc_at(word: u64) -> Ldc
    ensures { result ≡ ldc_at word }
{
    Ldc {
        il: bit(word, 25),
        cv: bit(word, 24),
        cond: field32(word, 23, 20),
        imm8: field32(word, 19, 12),
        rn: field32(word, 8, 5),
        offset: bit(word, 4),
        am: field32(word, 3, 1),
        direction: bit(word, 0),
    }
}

fn simd_at(word: u64) -> Simd
    ensures { result ≡ simd_at word }
{
    Simd {
        il: bit(word, 25),
        cv: bit(word, 24),
        cond: field32(word, 23, 20),
        ta: bit(word, 5),
        coproc: field32(word, 3, 0),
    }
}

fn instruction_abort_at(word: u64) -> InstructionAbort
    ensures { result ≡ instruction_abort_at word }
{
    InstructionAbort {
        il: bit(word, 25),
        fnv: bit(word, 10),
        ea: bit(word, 9),
        s1ptw: bit(word, 7),
        code: field32(word, 5, 0),
    }
}

fn data_abort_at(word: u64) -> DataAbort
    ensures { result ≡ data_abort_at word }
{
    DataAbort {
        il: bit(word, 25),
        isv: bit(word, 24),
        sas: field32(word, 23, 22),
        sse: bit(word, 21),
        srt: field32(word, 19, 16),
        ar: bit(word, 14),
        aet: field32(word, 11, 10),
        ea: bit(word, 9),
        cm: bit(word, 8),
        s1ptw: bit(word, 7),
        wnr: bit(word, 6),
        code: field32(word, 5, 0),
    }
}

// The record at a word's bits, by the layout of a class. A class with no layout reads as one without fields, which its kind lacks.
#[tactic(auto, unfolding(crate::specs::Split::record_of))]
fn record_of(class: u32, word: u64) -> Record
    ensures { result ≡ record_of class word }
{
    match class {
        0x01 => Record::Wfx(split::wfx_at(word)),
        0x03 | 0x05 | 0x08 => Record::Mcr(mcr_at(class, word)),
        0x04 | 0x0C => Record::Mcrr(mcrr_at(class, word)),
        0x06 => Record::Ldc(ldc_at(word)),
        0x07 => Record::Simd(simd_at(word)),
        0x11 => Record::Call(split::call_at(class, word)),
        0x12 => Record::Call(split::call_at(class, word)),
        0x13 => Record::Smc(split::smc_at(word)),
        0x20 => Record::InstructionAbort(instruction_abort_at(word)),
        0x24 => Record::DataAbort(data_abort_at(word)),
        _ => Record::Plain(split::plain_at(class, word)),
    }
}

// The record at a word's bits, by the layout of the word's own class.
pub fn record_at(hsr: Hsr) -> Record
    ensures { result ≡ record_at hsr.0 }
{
    let word = hsr.0 as u64;
    record_of(field32(word, 31, 26), word)
}
