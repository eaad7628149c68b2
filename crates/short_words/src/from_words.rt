// The record whose words some words are. Others are the words of none, and are taken for a record that no edition has.
ghost use Rattle.std.specs.Prelude.{◌≡◌};
ghost use Rattle.short_words.specs.Reading.{mcr_in, mcrr_in, ldc_in, simd_in, instruction_abort_in, data_abort_in, no_record, record_by};
ghost use Rattle.short_words.specs.Reading.{record_of};

use super::to_words::words_of;
use record::Plain;
use record_of_words::{call_in, plain_in, same, smc_in, wfx_in};
use short_record::{DataAbort, InstructionAbort, Ldc, Mcr, Mcrr, Record, Simd};

// Kept: mcr_in, mcrr_in and ldc_in are record_of_words', of other structs: a short register is another number (C-11.20).
fn mcr_in(words: [u32; 16]) -> Mcr
    ensures { result ≡ mcr_in words }
{
    Mcr {
        class: words[1],
        il: words[2] == 1,
        cv: words[3] == 1,
        cond: words[4],
        opc2: words[5],
        opc1: words[6],
        crn: words[7],
        rt: words[8],
        crm: words[9],
        direction: words[10] == 1,
    }
}

fn mcrr_in(words: [u32; 16]) -> Mcrr
    ensures { result ≡ mcrr_in words }
{
    Mcrr {
        class: words[1],
        il: words[2] == 1,
        cv: words[3] == 1,
        cond: words[4],
        opc1: words[5],
        rt2: words[6],
        rt: words[7],
        crm: words[8],
        direction: words[9] == 1,
    }
}

fn ldc_in(words: [u32; 16]) -> Ldc
    ensures { result ≡ ldc_in words }
{
    Ldc {
        il: words[1] == 1,
        cv: words[2] == 1,
        cond: words[3],
        imm8: words[4],
        rn: words[5],
        offset: words[6] == 1,
        am: words[7],
        direction: words[8] == 1,
    }
}

fn simd_in(words: [u32; 16]) -> Simd
    ensures { result ≡ simd_in words }
{
    Simd {
        il: words[1] == 1,
        cv: words[2] == 1,
        cond: words[3],
        ta: words[4] == 1,
        coproc: words[5],
    }
}

fn instruction_abort_in(words: [u32; 16]) -> InstructionAbort
    ensures { result ≡ instruction_abort_in words }
{
    InstructionAbort {
        il: words[1] == 1,
        fnv: words[2] == 1,
        ea: words[3] == 1,
        s1ptw: words[4] == 1,
        code: words[5],
    }
}

fn data_abort_in(words: [u32; 16]) -> DataAbort
    ensures { result ≡ data_abort_in words }
{
    DataAbort {
        il: words[1] == 1,
        isv: words[2] == 1,
        sas: words[3],
        sse: words[4] == 1,
        srt: words[5],
        ar: words[6] == 1,
        aet: words[7],
        ea: words[8] == 1,
        cm: words[9] == 1,
        s1ptw: words[10] == 1,
        wnr: words[11] == 1,
        code: words[12],
    }
}

// Class 64 is none: it has more bits than EC.
fn no_record() -> Record
    ensures { result ≡ no_record }
{
    Record::Plain(Plain {
        class: 64,
        il: true,
    })
}

// The record of a kind, from its fields' places.
// Kept: a kind is a number here, as the words from C have it.
#[tactic(auto, unfolding(crate::specs::Reading::record_by))]
fn record_by(kind: u32, words: [u32; 16]) -> Record
    ensures { result ≡ record_by kind words }
{
    match kind {
        0 => Record::Plain(plain_in(words)),
        1 => Record::Wfx(wfx_in(words)),
        2 => Record::Mcr(mcr_in(words)),
        3 => Record::Mcrr(mcrr_in(words)),
        4 => Record::Ldc(ldc_in(words)),
        5 => Record::Simd(simd_in(words)),
        6 => Record::Call(call_in(words)),
        7 => Record::Smc(smc_in(words)),
        8 => Record::InstructionAbort(instruction_abort_in(words)),
        9 => Record::DataAbort(data_abort_in(words)),
        _ => no_record(),
    }
}

// The record whose words these are.
// Kept: record_of_words::record_of over another Record; a trait for both would be longer than these six lines.
#[tactic(auto, unfolding(crate::specs::Reading::record_of))]
pub fn record_of(words: [u32; 16]) -> Record
    ensures { result ≡ record_of words }
{
    let r = record_by(words[0], words);
    if same(words_of(r), words) {
        r
    } else {
        no_record()
    }
}
