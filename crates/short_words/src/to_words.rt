// A record's words.
ghost use Rattle.std.specs.Prelude.{◌≡◌};
ghost use Rattle.short_words.specs.Words.{mcr_words, mcrr_words, ldc_words, simd_words, instruction_abort_words, data_abort_words, words_of};

use record_words::{call_words, padded, plain_words, smc_words, wfx_words};
use short_record::{DataAbort, InstructionAbort, Ldc, Mcr, Mcrr, Record, Simd};

// Kept: mcr_words, mcrr_words and ldc_words are record_words', of other structs: a short register is another number (C-11.20).
fn mcr_words(x: Mcr) -> [u32; 16]
    ensures { result ≡ mcr_words x }
{
    padded(
        2,
        [
            x.class,
            x.il as u32,
            x.cv as u32,
            x.cond,
            x.opc2,
            x.opc1,
            x.crn,
            x.rt,
            x.crm,
            x.direction as u32,
        ],
    )
}

fn mcrr_words(x: Mcrr) -> [u32; 16]
    ensures { result ≡ mcrr_words x }
{
    padded(
        3,
        [
            x.class,
            x.il as u32,
            x.cv as u32,
            x.cond,
            x.opc1,
            x.rt2,
            x.rt,
            x.crm,
            x.direction as u32,
        ],
    )
}

fn ldc_words(x: Ldc) -> [u32; 16]
    ensures { result ≡ ldc_words x }
{
    padded(
        4,
        [
            x.il as u32,
            x.cv as u32,
            x.cond,
            x.imm8,
            x.rn,
            x.offset as u32,
            x.am,
            x.direction as u32,
        ],
    )
}

fn simd_words(x: Simd) -> [u32; 16]
    ensures { result ≡ simd_words x }
{
    padded(5, [x.il as u32, x.cv as u32, x.cond, x.ta as u32, x.coproc])
}

fn instruction_abort_words(x: InstructionAbort) -> [u32; 16]
    ensures { result ≡ instruction_abort_words x }
{
    padded(
        8,
        [
            x.il as u32,
            x.fnv as u32,
            x.ea as u32,
            x.s1ptw as u32,
            x.code,
        ],
    )
}

fn data_abort_words(x: DataAbort) -> [u32; 16]
    ensures { result ≡ data_abort_words x }
{
    padded(
        9,
        [
            x.il as u32,
            x.isv as u32,
            x.sas,
            x.sse as u32,
            x.srt,
            x.ar as u32,
            x.aet,
            x.ea as u32,
            x.cm as u32,
            x.s1ptw as u32,
            x.wnr as u32,
            x.code,
        ],
    )
}

pub fn words_of(r: Record) -> [u32; 16]
    ensures { result ≡ words_of r }
{
    match r {
        Record::Plain(x) => plain_words(x),
        Record::Wfx(x) => wfx_words(x),
        Record::Mcr(x) => mcr_words(x),
        Record::Mcrr(x) => mcrr_words(x),
        Record::Ldc(x) => ldc_words(x),
        Record::Simd(x) => simd_words(x),
        Record::Call(x) => call_words(x),
        Record::Smc(x) => smc_words(x),
        Record::InstructionAbort(x) => instruction_abort_words(x),
        Record::DataAbort(x) => data_abort_words(x),
    }
}
