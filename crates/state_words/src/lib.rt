// A guest's state as 48 words, in document 01's order: 31 registers, PC, the status word, five saved status words, DFSR, IFSR, DFAR, IFAR,
// SCTLR, VBAR, TTBCR, and the three marks, each of them set where its word isn't 0.
#![tactic(auto)]

ghost use Rattle.std.specs.Prelude.{◌≡◌, ◌++◌, length, take, drop};
ghost use Rattle.state_words.specs.Words.{is_mark, saved_of, faults_of, marks_of, state_of, words_of};

use exception::{FaultRegisters, Guest, Saved};
use status::Marks;

fn registers_in(words: [u32; 48]) -> [u32; 31]
    ensures { result ≡ take 31 words }
{
    let mut regs = [0u32; 31];
    for i in 0..31 {
        regs[i] = words[i];
    }
    regs
}

fn saved_in(words: [u32; 48]) -> Saved
    ensures { result ≡ saved_of words }
{
    Saved {
        fiq: words[33],
        irq: words[34],
        svc: words[35],
        abt: words[36],
        und: words[37],
    }
}

fn faults_in(words: [u32; 48]) -> FaultRegisters
    ensures { result ≡ faults_of words }
{
    FaultRegisters {
        dfsr: words[38],
        ifsr: words[39],
        dfar: words[40],
        ifar: words[41],
    }
}

pub fn is_mark(word: u32) -> bool
    ensures { result ≡ is_mark word }
{
    word != 0
}

fn marks_in(words: [u32; 48]) -> Marks
    ensures { result ≡ marks_of words }
{
    Marks {
        pan: is_mark(words[45]),
        ssbs: is_mark(words[46]),
        dit: is_mark(words[47]),
    }
}

// The state that the words hold.
pub fn state_of(words: [u32; 48]) -> Guest
    ensures { result ≡ state_of words }
{
    Guest {
        regs: registers_in(words),
        pc: words[31],
        status: words[32],
        saved: saved_in(words),
        faults: faults_in(words),
        sctlr: words[42],
        vbar: words[43],
        ttbcr: words[44],
        marks: marks_in(words),
    }
}

fn with_registers(words: [u32; 48], regs: [u32; 31]) -> [u32; 48]
    ensures { (length regs ≡ 31) × (result ≡ regs ++ drop 31 words) }
{
    let mut after = words;
    for i in 0..31 {
        after[i] = regs[i];
    }
    after
}

// The words with a state in them. The marks' words stay: no call changes a mark.
pub fn words_of(words: [u32; 48], state: Guest) -> [u32; 48]
    ensures { result ≡ words_of words state }
{
    let mut after = with_registers(words, state.regs);
    after[31] = state.pc;
    after[32] = state.status;
    after[33] = state.saved.fiq;
    after[34] = state.saved.irq;
    after[35] = state.saved.svc;
    after[36] = state.saved.abt;
    after[37] = state.saved.und;
    after[38] = state.faults.dfsr;
    after[39] = state.faults.ifsr;
    after[40] = state.faults.dfar;
    after[41] = state.faults.ifar;
    after[42] = state.sctlr;
    after[43] = state.vbar;
    after[44] = state.ttbcr;
    after
}
