// Fault codes, error types and the codes of a valid instruction syndrome, as masks of the editions that have them.
#![tactic(auto)]

ghost use Rattle.std.specs.Prelude.{◌≡◌};
ghost use Rattle.edition.specs.Mask.{mask_of};
ghost use Rattle.fault_code.specs.Code.{instruction_code, data_code, set_rule, isv_rule, error_code};

use edition::{ALL, HAFDBS, LPA2, RAS};

const NO_RAS: u32 = ALL - RAS;

const LPA2_NO_RAS: u32 = LPA2 & NO_RAS;

// The editions that have each fault code of an instruction abort.
const INSTRUCTION_CODES: [u32; 64] = [
    ALL, // 0x00
    ALL, // 0x01
    ALL, // 0x02
    ALL, // 0x03
    ALL, // 0x04
    ALL, // 0x05
    ALL, // 0x06
    ALL, // 0x07
    LPA2, // 0x08
    ALL, // 0x09
    ALL, // 0x0A
    ALL, // 0x0B
    LPA2, // 0x0C
    ALL, // 0x0D
    ALL, // 0x0E
    ALL, // 0x0F
    ALL, // 0x10
    0, // 0x11
    0, // 0x12
    LPA2, // 0x13
    ALL, // 0x14
    ALL, // 0x15
    ALL, // 0x16
    ALL, // 0x17
    NO_RAS, // 0x18
    0, // 0x19
    0, // 0x1A
    LPA2_NO_RAS, // 0x1B
    NO_RAS, // 0x1C
    NO_RAS, // 0x1D
    NO_RAS, // 0x1E
    NO_RAS, // 0x1F
    0, // 0x20
    0, // 0x21
    0, // 0x22
    0, // 0x23
    0, // 0x24
    0, // 0x25
    0, // 0x26
    0, // 0x27
    0, // 0x28
    LPA2, // 0x29
    0, // 0x2A
    LPA2, // 0x2B
    0, // 0x2C
    0, // 0x2D
    0, // 0x2E
    0, // 0x2F
    ALL, // 0x30
    HAFDBS, // 0x31
    0, // 0x32
    0, // 0x33
    0, // 0x34
    0, // 0x35
    0, // 0x36
    0, // 0x37
    0, // 0x38
    0, // 0x39
    0, // 0x3A
    0, // 0x3B
    0, // 0x3C
    0, // 0x3D
    0, // 0x3E
    0, // 0x3F
];

// The editions that have each fault code of a data abort.
// Kept: one fixed table of 64 masks for each abort is the form that was asked for (docs/DEMANDS.md, "Places and their forms").
const DATA_CODES: [u32; 64] = [
    ALL, // 0x00
    ALL, // 0x01
    ALL, // 0x02
    ALL, // 0x03
    ALL, // 0x04
    ALL, // 0x05
    ALL, // 0x06
    ALL, // 0x07
    LPA2, // 0x08
    ALL, // 0x09
    ALL, // 0x0A
    ALL, // 0x0B
    LPA2, // 0x0C
    ALL, // 0x0D
    ALL, // 0x0E
    ALL, // 0x0F
    ALL, // 0x10
    0, // 0x11
    0, // 0x12
    LPA2, // 0x13
    ALL, // 0x14
    ALL, // 0x15
    ALL, // 0x16
    ALL, // 0x17
    NO_RAS, // 0x18
    0, // 0x19
    0, // 0x1A
    LPA2_NO_RAS, // 0x1B
    NO_RAS, // 0x1C
    NO_RAS, // 0x1D
    NO_RAS, // 0x1E
    NO_RAS, // 0x1F
    0, // 0x20
    ALL, // 0x21
    0, // 0x22
    0, // 0x23
    0, // 0x24
    0, // 0x25
    0, // 0x26
    0, // 0x27
    0, // 0x28
    LPA2, // 0x29
    0, // 0x2A
    LPA2, // 0x2B
    0, // 0x2C
    0, // 0x2D
    0, // 0x2E
    0, // 0x2F
    ALL, // 0x30
    HAFDBS, // 0x31
    0, // 0x32
    0, // 0x33
    ALL, // 0x34
    ALL, // 0x35
    0, // 0x36
    0, // 0x37
    0, // 0x38
    0, // 0x39
    0, // 0x3A
    0, // 0x3B
    0, // 0x3C
    0, // 0x3D
    0, // 0x3E
    0, // 0x3F
];

pub fn instruction_code(code: u32) -> u32
    ensures { result ≡ mask_of (λ e. instruction_code e code) }
{
    if code < 64 {
        let at = code as usize;
        INSTRUCTION_CODES[at]
    } else {
        0
    }
}

pub fn data_code(code: u32) -> u32
    ensures { result ≡ mask_of (λ e. data_code e code) }
{
    if code < 64 {
        let at = code as usize;
        DATA_CODES[at]
    } else {
        0
    }
}

// The error type is 0, or with a synchronous external abort and RAS 2 or 3.
pub fn set_rule(set: u32, code: u32) -> u32
    ensures { result ≡ mask_of (λ e. set_rule e set code) }
{
    if set == 0 {
        edition::all_editions()
    } else if (code == 0x10) & ((set == 2) | (set == 3)) {
        edition::ras_editions()
    } else {
        0
    }
}

// The codes that a valid instruction syndrome goes with.
pub fn isv_rule(isv: bool, code: u32) -> u32
    ensures { result ≡ mask_of (λ e. isv_rule e isv code) }
{
    if !isv | iss::mmu_fault(code) {
        edition::all_editions()
    } else if (0x13 <= code) & (code <= 0x17) {
        edition::no_ras_editions()
    } else {
        0
    }
}

// Only RAS has an SError interrupt with more to tell than that it came.
pub fn error_code(code: u32) -> u32
    ensures { result ≡ mask_of (λ e. error_code e code) }
{
    if code == 0 {
        edition::all_editions()
    } else if code == 0x11 {
        edition::ras_editions()
    } else {
        0
    }
}
