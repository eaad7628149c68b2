// The words of the fault status registers, DFSR and IFSR.
#![tactic(auto)]

ghost use Rattle.std.specs.Prelude.{◌≡◌};
ghost use Rattle.fault.specs.Fault.{by_level, levelled, fault_row, is_long, column, status_word, status_of, is_alignment, ifsr_word};
ghost use Rattle.fault.specs.Fault.{domain_in, dfsr_of, dfsr_word, is_code, code_in, asynchronous_dfsr};

use bits::bit;

// A fault with the level of the lookup that gave it, where the fault has a level.
// Kept: a level is any byte, of which `fetch_writable` and `access_writable` (proofs/Levels.antt) tell the ones that are written.
#[derive(Clone, Copy, PartialEq, Eq)]
pub enum Fault {
    External,
    Translation(u8),
    AccessFlag(u8),
    Permission(u8),
    Alignment,
}

// A row of the table: FS of the short format, STATUS of the long, none where a format can't write the fault, and whether the short
// format's DFSR has the domain.
#[derive(Clone, Copy)]
struct Row {
    short: Option<u32>,
    long: Option<u32>,
    domain: bool,
}

// The code of a level: those of levels 1 and 2, and what stands at level 3.
#[tactic(auto, unfolding(crate::specs::Fault::by_level))]
fn by_level(level: u8, first: u32, second: u32, third: Option<u32>) -> Option<u32>
    ensures { result ≡ by_level level first second third }
{
    match level {
        1 => Some(first),
        2 => Some(second),
        3 => third,
        _ => None,
    }
}

// The row of a fault that has levels: two codes of the short format, which has no level 3, three of the long, and whether level 2
// has the domain.
fn levelled(level: u8, s1: u32, s2: u32, l1: u32, l2: u32, l3: u32, domain: bool) -> Row
    ensures { result ≡ levelled level s1 s2 l1 l2 l3 domain }
{
    Row {
        short: by_level(level, s1, s2, None),
        long: by_level(level, l1, l2, Some(l3)),
        domain: domain & (level == 2),
    }
}

fn fault_row(fault: Fault) -> Row
    ensures { result ≡ fault_row fault }
{
    match fault {
        Fault::External => Row {
            short: Some(0b01000),
            long: Some(0b010000),
            domain: false,
        },
        Fault::Translation(l) => levelled(l, 0b00101, 0b00111, 0b000101, 0b000110, 0b000111, true),
        Fault::AccessFlag(l) => levelled(l, 0b00011, 0b00110, 0b001001, 0b001010, 0b001011, true),
        Fault::Permission(l) => levelled(l, 0b01101, 0b01111, 0b001101, 0b001110, 0b001111, false),
        Fault::Alignment => Row {
            short: Some(0b00001),
            long: Some(0b100001),
            domain: false,
        },
    }
}

// TTBCR.EAE chooses the long format.
fn is_long(ttbcr: u32) -> bool
    ensures { result ≡ is_long ttbcr }
{
    bit(ttbcr as u64, 31)
}

// The format's column.
fn column(row: Row, long: bool) -> Option<u32>
    ensures { result ≡ column row long }
{
    if long { row.long } else { row.short }
}

// The code in its place. Long: bit 9 marks the format, STATUS is in bits 5:0. Short: FS bit 4 is in bit 10, FS 3:0 in
// bits 3:0.
#[tactic(auto, using(crate::proofs::Masks::long_status, crate::proofs::Masks::short_status))]
fn status_word(code: u32, long: bool) -> u32
    ensures { result ≡ status_word code long }
{
    if long {
        (code & 0x3F) | 0x200
    } else {
        ((code & 0x10) << 6) | (code & 0xF)
    }
}

// The code in the format that TTBCR chooses.
#[tactic(auto, unfolding(crate::specs::Fault::status_of))]
fn status_of(row: Row, ttbcr: u32) -> Option<u32>
    ensures { result ≡ status_of row ttbcr }
{
    let long = is_long(ttbcr);
    column(row, long).map(move |code| status_word(code, long))
}

// An alignment fault, which no instruction fetch has.
fn is_alignment(fault: Fault) -> bool
    ensures { result ≡ is_alignment fault }
{
    fault == Fault::Alignment
}

// IFSR of a prefetch abort.
pub fn ifsr_word(fault: Fault, ttbcr: u32) -> Option<u32>
    ensures { result ≡ ifsr_word fault ttbcr }
{
    if is_alignment(fault) {
        None
    } else {
        status_of(fault_row(fault), ttbcr)
    }
}

// What the domain adds to a DFSR: its four bits at 7:4, in the short format of a fault that has one.
#[tactic(auto, using(crate::proofs::Masks::domain_moved))]
fn domain_in(row: Row, long: bool, domain: u8) -> u32
    ensures { result ≡ domain_in row long domain }
{
    if row.domain & !long {
        (domain as u32 & 0xF) << 4
    } else {
        0
    }
}

// Every DFSR is made here: the status, the domain, and WnR, bit 11, which is set for a write.
#[tactic(auto, unfolding(crate::specs::Fault::dfsr_of))]
fn dfsr_of(row: Row, write: bool, domain: u8, ttbcr: u32) -> Option<u32>
    ensures { result ≡ dfsr_of row write domain ttbcr }
{
    let status = status_of(row, ttbcr)?;
    let word = status | domain_in(row, is_long(ttbcr), domain);
    Some(if write { word | 0x800 } else { word })
}

// DFSR of a data abort.
pub fn dfsr_word(fault: Fault, write: bool, domain: u8, ttbcr: u32) -> Option<u32>
    ensures { result ≡ dfsr_word fault write domain ttbcr }
{
    dfsr_of(fault_row(fault), write, domain, ttbcr)
}

// Whether a fault can be written.
// Kept: each abort that guest injects goes through it (`coded`), and `fetch_writable` and `access_writable` name its definition.
pub fn is_code(encoding: Option<u32>) -> bool
    ensures { result ≡ is_code encoding }
{
    encoding.is_some()
}

// The word of a fault that can be written.
// Kept: each abort that guest injects goes through it (`coded`), and `faults_after` names its definition.
pub fn code_in(encoding: Option<u32>) -> u32
    ensures { result ≡ code_in encoding }
{
    encoding.unwrap_or(0)
}

// DFSR of a virtual abort: an asynchronous external abort, which no injection carries.
pub fn asynchronous_dfsr(domain: u8, ttbcr: u32) -> u32
    ensures { result ≡ asynchronous_dfsr domain ttbcr }
{
    let asynchronous = Row {
        short: Some(0b10110),
        long: Some(0b010001),
        domain: false,
    };
    code_in(dfsr_of(asynchronous, false, domain, ttbcr))
}
