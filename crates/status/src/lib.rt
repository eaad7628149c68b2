// The status word (CPSR) of an AArch32 guest: which words are sound, the word that an exception's handler finds, and the
// word that the hypervisor saved of it.
#![tactic(auto)]

ghost use Rattle.std.specs.Prelude.{◌≡◌, ◌*◌, ◌^◌, ◌/◌, ◌%◌, ◌<◌, cond};
ghost use Rattle.status.specs.Mode.{is_mode, mode_number};
ghost use Rattle.status.specs.Sound.{allowed, sound};
ghost use Rattle.status.specs.Entry.{t32, entry_pan, entry_ssbs, entry_status};
ghost use Rattle.status.specs.It.{it_of, it_advance, with_it, it_advanced};
ghost use Rattle.status.specs.Spsr.{spsr_status, SpsrPromise, status_spsr, ToSpsrPromise};
ghost use Rattle.status.specs.Register.{by_mode, link_register, register_number, held_in};

use bits::bit;

// The modes that an exception enters.
#[derive(Clone, Copy)]
pub enum Mode {
    Supervisor,
    Abort,
    Undefined,
    Fiq,
    Irq,
}

// The features whose bits a guest's status word has.
#[derive(Clone, Copy)]
pub struct Marks {
    pub pan: bool,
    pub ssbs: bool,
    pub dit: bool,
}

// N, Z, C, V and Q.
const FLAGS: u32 = 0xF800_0000;

// Bit 24, which no guest has.
const J: u32 = 0x0100_0000;

const SSBS: u32 = 0x0080_0000;

const DIT: u32 = 0x0020_0000;

const GE: u32 = 0x000F_0000;

const I: u32 = 0x80;

// SCTLR.EE and SCTLR.TE: E and T of an exception's handler.
const EE: u32 = 0x0200_0000;

const TE: u32 = 0x4000_0000;

// SCTLR.DSSBS: SSBS of an exception's handler.
const DSSBS: u32 = 0x8000_0000;

// A feature's bit is set only where the guest has the feature.
fn allowed(marked: bool, set: bool) -> bool
    ensures { result ≡ allowed marked set }
{
    marked | !set
}

// A status word that a guest can have: an accepted mode in bits 4:0, and no bit of 24:21 but those of its features.
#[tactic(auto, using(crate::proofs::Masks::mode_field), unfolding(crate::specs::Sound::sound))]
pub fn sound(marks: Marks, status: u32) -> bool
    ensures { result ≡ sound marks status }
{
    let word = status as u64;
    is_mode(status & 0x1F)
        & allowed(false, bit(word, 24))
        & allowed(marks.ssbs, bit(word, 23))
        & allowed(marks.pan, bit(word, 22))
        & allowed(marks.dit, bit(word, 21))
}

// Whether the guest is in T32 state.
pub fn t32(status: u32) -> bool
    ensures { result ≡ t32 status }
{
    bit(status as u64, 5)
}

// The mode's number in the M field.
fn mode_number(mode: Mode) -> u32
    ensures { result ≡ mode_number mode }
{
    match mode {
        Mode::Supervisor => 0x13,
        Mode::Abort => 0x17,
        Mode::Undefined => 0x1B,
        Mode::Fiq => 0x11,
        Mode::Irq => 0x12,
    }
}

// A bit in its place, set or kept.
#[tactic(auto, using(crate::proofs::Masks::kept_bit))]
fn set_or_kept(set: bool, old: u32, place: u32) -> u32
    requires { place < 32 }
    ensures { result ≡ cond set 1 (old / 2 ^ place % 2) * 2 ^ place }
{
    let bit = 1 << place;
    if set { bit } else { old & bit }
}

// PAN, which SCTLR.SPAN, bit 23, leaves as it was.
fn entry_pan(marked: bool, old: u32, sctlr: u32) -> u32
    ensures { result ≡ entry_pan marked old sctlr * 2 ^ 22 }
{
    set_or_kept(marked & !bit(sctlr as u64, 23), old, 22)
}

fn entry_ssbs(marked: bool, old: u32, sctlr: u32) -> u32
    ensures { result ≡ entry_ssbs marked old sctlr * 2 ^ 23 }
{
    if marked {
        (sctlr & DSSBS) >> 8
    } else {
        old & SSBS
    }
}

// The status word at the handler's first instruction: A and F are set, or kept. IT and IL are 0.
pub fn entry_status(marks: Marks, mode: Mode, a: bool, f: bool, old: u32, sctlr: u32) -> u32
    ensures { result ≡ entry_status marks mode a f old sctlr }
{
    (old & FLAGS)
        | (old & J)
        | entry_ssbs(marks.ssbs, old, sctlr)
        | entry_pan(marks.pan, old, sctlr)
        | (old & DIT)
        | (old & GE)
        | ((sctlr & EE) >> 16)
        | set_or_kept(a, old, 8)
        | I
        | set_or_kept(f, old, 6)
        | ((sctlr & TE) >> 25)
        | mode_number(mode)
}

// Whether the number is that of a mode that a guest runs in.
#[tactic(auto, unfolding(crate::specs::Mode::is_mode))]
pub fn is_mode(mode: u32) -> bool
    ensures { result ≡ is_mode mode }
{
    matches!(mode, 0x10 | 0x11 | 0x12 | 0x13 | 0x17 | 0x1B | 0x1F)
}

// What a mode has of its own; User and System share the last.
pub fn by_mode(mode: u32, fiq: u32, irq: u32, svc: u32, abt: u32, und: u32, usr: u32) -> u32
    ensures { result ≡ by_mode mode fiq irq svc abt und usr }
{
    match mode {
        0x11 => fiq,
        0x12 => irq,
        0x13 => svc,
        0x17 => abt,
        0x1B => und,
        _ => usr,
    }
}

// The AArch64 number of R14, the link register, of a mode.
pub fn link_register(mode: u32) -> u32
    ensures { result ≡ link_register mode }
{
    by_mode(mode, 30, 16, 18, 20, 22, 14)
}

// The AArch64 number of a register of a mode.
#[tactic(auto, unfolding(crate::specs::Register::register_number))]
fn number_in(mode: u32, number: u32) -> u32
    ensures { result ≡ register_number mode number }
{
    if number == 13 {
        by_mode(mode, 29, 17, 19, 21, 23, 13)
    } else if number == 14 {
        link_register(mode)
    } else if (mode == 0x11) & (8 <= number) & (number <= 12) {
        number + 16
    } else {
        number
    }
}

// Which AArch64 register holds a register of a mode, by the manual's mapping: nowhere above R14, or in a mode that no guest runs in.
pub fn held_in(mode: u32, number: u32) -> Option<u32>
    ensures { result ≡ held_in mode number }
{
    if is_mode(mode) & (number <= 14) {
        Some(number_in(mode, number))
    } else {
        None
    }
}

// The saved word with DIT, bit 24, in its place of a status word, bit 21, and without SS, which was there.
fn spsr_status(spsr: u32) -> u32
    ensures { result ≡ spsr_status spsr }
{
    (spsr & 0xFE00_0000) | (spsr & 0x00C0_0000) | ((spsr & 0x0100_0000) >> 3) | (spsr & 0x001F_FFFF)
}

// The guest's status word, from the word that the hypervisor saved of it (SPSR_EL2): none where its mode, or a bit of its 24:21, is wrong.
#[tactic(auto, using(crate::proofs::Saved::promised), unfolding(crate::specs::Spsr::from_spsr))]
pub fn from_spsr(marks: Marks, spsr: u32) -> Option<u32>
    ensures { SpsrPromise marks spsr result }
{
    let word = spsr_status(spsr);
    if sound(marks, word) { Some(word) } else { None }
}

// The status word with DIT, bit 21, in its place of a saved word, bit 24; SS, bit 21 there, is 0.
fn status_spsr(status: u32) -> u32
    ensures { result ≡ status_spsr status }
{
    (status & 0xFE00_0000) | ((status & DIT) << 3) | (status & 0x00C0_0000) | (status & 0x001F_FFFF)
}

// The word to write into SPSR_EL2, from the guest's status word: none where its mode, or a bit of its 24:21, is wrong.
#[tactic(auto, using(crate::proofs::Written::promised), unfolding(crate::specs::Spsr::to_spsr))]
pub fn to_spsr(marks: Marks, status: u32) -> Option<u32>
    ensures { ToSpsrPromise marks status result }
{
    if sound(marks, status) {
        Some(status_spsr(status))
    } else {
        None
    }
}

// IT: bits 7:2 of it stand in bits 15:10, and bits 1:0 in 26:25.
pub fn it_of(status: u32) -> u32
    ensures { result ≡ it_of status }
{
    ((status & 0xFC00) >> 8) | ((status & 0x0600_0000) >> 25)
}

// AArch32.ITAdvance: the block ends when its last instruction is done, and else the next condition bit comes up.
fn it_advance(it: u32) -> u32
    ensures { result ≡ it_advance it }
{
    if it & 0x7 == 0 {
        0
    } else {
        (it & 0xE0) | ((it & 0xF) << 1)
    }
}

fn with_it(status: u32, it: u32) -> u32
    ensures { result ≡ with_it status it }
{
    (status & 0xF800_0000)
        | ((it & 0x3) << 25)
        | (status & 0x01FF_0000)
        | ((it & 0xFC) << 8)
        | (status & 0x3FF)
}

// The status word after an instruction that is done.
pub fn it_advanced(status: u32) -> u32
    ensures { result ≡ it_advanced status }
{
    with_it(status, it_advance(it_of(status)))
}
