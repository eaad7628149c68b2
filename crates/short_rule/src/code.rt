// The rules that go by the edition, as masks of the short editions that allow a record's fields.
ghost use Rattle.std.specs.Prelude.{◌≡◌};
ghost use Rattle.edition.specs.Feature.{ras};
ghost use Rattle.iss.specs.Rule.{isv_code};
ghost use Rattle.short_rule.specs.Edition.{mask_of};
ghost use Rattle.short_rule.specs.Code.{instruction_code, data_code, aet_rule, wnr_rule, edition_rule};
ghost use Rattle.short_rule.specs.Has.{editions_of};

use super::il::il_rule;
use super::mask::{ALL, NO_RAS, all_editions, no_ras_editions, ras_editions};
use super::rules;
use short_record::Record;

// The editions that have each fault code of an instruction abort.
const INSTRUCTION_CODES: [u32; 64] = [
    ALL, // 0x00
    ALL, // 0x01
    ALL, // 0x02
    ALL, // 0x03
    0, // 0x04
    ALL, // 0x05
    ALL, // 0x06
    ALL, // 0x07
    0, // 0x08
    ALL, // 0x09
    ALL, // 0x0A
    ALL, // 0x0B
    0, // 0x0C
    ALL, // 0x0D
    ALL, // 0x0E
    ALL, // 0x0F
    ALL, // 0x10
    0, // 0x11
    0, // 0x12
    0, // 0x13
    0, // 0x14
    ALL, // 0x15
    ALL, // 0x16
    ALL, // 0x17
    NO_RAS, // 0x18
    0, // 0x19
    0, // 0x1A
    0, // 0x1B
    0, // 0x1C
    NO_RAS, // 0x1D
    NO_RAS, // 0x1E
    NO_RAS, // 0x1F
    0, // 0x20
    0, // 0x21
    ALL, // 0x22
    0, // 0x23
    0, // 0x24
    0, // 0x25
    0, // 0x26
    0, // 0x27
    0, // 0x28
    0, // 0x29
    0, // 0x2A
    0, // 0x2B
    0, // 0x2C
    0, // 0x2D
    0, // 0x2E
    0, // 0x2F
    ALL, // 0x30
    0, // 0x31
    0, // 0x32
    0, // 0x33
    0, // 0x34
    0, // 0x35
    0, // 0x36
    0, // 0x37
    0, // 0x38
    0, // 0x39
    0, // 0x3A
    0, // 0x3B
    0, // 0x3C
    0, // 0x3D
    0, // 0x3E
    0, // 0x3F
];

// The editions that have each fault code of a data abort.
const DATA_CODES: [u32; 64] = [
    ALL, // 0x00
    ALL, // 0x01
    ALL, // 0x02
    ALL, // 0x03
    0, // 0x04
    ALL, // 0x05
    ALL, // 0x06
    ALL, // 0x07
    0, // 0x08
    ALL, // 0x09
    ALL, // 0x0A
    ALL, // 0x0B
    0, // 0x0C
    ALL, // 0x0D
    ALL, // 0x0E
    ALL, // 0x0F
    ALL, // 0x10
    ALL, // 0x11
    0, // 0x12
    0, // 0x13
    0, // 0x14
    ALL, // 0x15
    ALL, // 0x16
    ALL, // 0x17
    NO_RAS, // 0x18
    NO_RAS, // 0x19
    0, // 0x1A
    0, // 0x1B
    0, // 0x1C
    NO_RAS, // 0x1D
    NO_RAS, // 0x1E
    NO_RAS, // 0x1F
    0, // 0x20
    ALL, // 0x21
    ALL, // 0x22
    0, // 0x23
    0, // 0x24
    0, // 0x25
    0, // 0x26
    0, // 0x27
    0, // 0x28
    0, // 0x29
    0, // 0x2A
    0, // 0x2B
    0, // 0x2C
    0, // 0x2D
    0, // 0x2E
    0, // 0x2F
    ALL, // 0x30
    0, // 0x31
    0, // 0x32
    0, // 0x33
    ALL, // 0x34
    ALL, // 0x35
    0, // 0x36
    0, // 0x37
    0, // 0x38
    0, // 0x39
    0, // 0x3A
    0, // 0x3B
    0, // 0x3C
    0, // 0x3D
    0, // 0x3E
    0, // 0x3F
];

// Kept: instruction_code and data_code differ in the table alone; a const parameter is a number, and each proof computes its table.
fn instruction_code(code: u32) -> u32
    ensures { result ≡ mask_of (λ e. instruction_code e code) }
{
    if code < 64 {
        let at = code as usize;
        INSTRUCTION_CODES[at]
    } else {
        0
    }
}

fn data_code(code: u32) -> u32
    ensures { result ≡ mask_of (λ e. data_code e code) }
{
    if code < 64 {
        let at = code as usize;
        DATA_CODES[at]
    } else {
        0
    }
}

// Bits 11:10: nothing, FnV of a synchronous external abort, or with RAS the AET of an SError interrupt.
#[tactic(auto, unfolding(crate::specs::Edition::mask_of))]
fn aet_rule(aet: u32, code: u32) -> u32
    ensures { result ≡ mask_of (λ e. aet_rule e aet code) }
{
    if (aet == 0) | (code == 0x10) & (aet == 1) {
        all_editions()
    } else if code == 0x11 {
        ras_editions()
    } else {
        0
    }
}

// WnR of an asynchronous abort tells nothing without RAS, and is 0 with it.
fn wnr_rule(wnr: bool, code: u32) -> u32
    ensures { result ≡ mask_of (λ e. wnr_rule e wnr code) }
{
    if rules::asynchronous(code) & wnr {
        no_ras_editions()
    } else {
        all_editions()
    }
}

// The codes that a valid instruction syndrome goes with.
#[tactic(auto, unfolding(crate::specs::Edition::mask_of))]
fn isv_rule(isv: bool, code: u32) -> u32
    ensures { result ≡ mask_of (λ e. isv_code (ras e) isv code) }
{
    if !isv | iss::mmu_fault(code) {
        all_editions()
    } else if (0x13 <= code) & (code <= 0x17) {
        no_ras_editions()
    } else {
        0
    }
}

// The editions whose fault codes, AET and WnR allow a record's.
fn edition_rule(r: Record) -> u32
    ensures { result ≡ mask_of (λ e. edition_rule e r) }
{
    match r {
        Record::Plain(_) => all_editions(),
        Record::Wfx(_) => all_editions(),
        Record::Mcr(_) => all_editions(),
        Record::Mcrr(_) => all_editions(),
        Record::Ldc(_) => all_editions(),
        Record::Simd(_) => all_editions(),
        Record::Call(_) => all_editions(),
        Record::Smc(_) => all_editions(),
        Record::InstructionAbort(x) => instruction_code(x.code),
        Record::DataAbort(x) => data_code(x.code)
            & aet_rule(x.aet, x.code)
            & wnr_rule(x.wnr, x.code)
            & isv_rule(x.isv, x.code),
    }
}

// The short editions that have a record.
pub fn editions(r: Record) -> u32
    ensures { result ≡ editions_of r }
{
    let h = short_record::head(r);
    if h.own & il_rule(h.class, h.isv, h.il) & rules::layout_rule(r) {
        edition_rule(r)
    } else {
        0
    }
}
