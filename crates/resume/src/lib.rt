// The return from an exception: the guest goes back to where it was.
#![tactic(auto)]

ghost use Rattle.std.specs.Prelude.{◌≡◌};
ghost use Rattle.resume.specs.Answer.{answer_number};
ghost use Rattle.resume.specs.Return.{banked, saved_of, restored};
ghost use Rattle.resume.specs.Promise.{Returning};
ghost use Rattle.resume.specs.Inner.{judged};

use bits::field32;
use exception::{Guest, Saved, register};
use signed::{Signed, difference};
use status::{by_mode, link_register, sound};

// Why a return is refused. Every refusal's number is 9.
#[derive(Clone, Copy, PartialEq, Eq)]
pub enum ReturnRefusal {
    // The status word's mode, or a bit of its 24:21, is wrong.
    UnsoundStatus,
    // The guest is in User or System mode, which have no saved status word.
    NoSavedStatus,
    // The saved word is no status word that the guest can have.
    UnsoundSaved,
}

// Kept: a refusal gives the state back beside the answer (`refused_untouched`, proofs/Answers.antt).
#[derive(Clone, Copy)]
pub struct Resumed {
    pub answer: Result<(), ReturnRefusal>,
    pub state: Guest,
}

pub fn number(answer: Result<(), ReturnRefusal>) -> u32
    ensures { result ≡ answer_number answer }
{
    match answer {
        Ok(()) => 0,
        Err(ReturnRefusal::UnsoundStatus) => 9,
        Err(ReturnRefusal::NoSavedStatus) => 9,
        Err(ReturnRefusal::UnsoundSaved) => 9,
    }
}

// Whether a mode that a guest runs in has a saved status word: all but User and System have.
fn banked(mode: u32) -> bool
    ensures { result ≡ banked mode }
{
    !matches!(mode, 0x10 | 0x1F)
}

// The saved status word of a mode that has one.
fn saved_of(mode: u32, saved: Saved) -> u32
    ensures { result ≡ saved_of mode saved }
{
    by_mode(
        mode, saved.fiq, saved.irq, saved.svc, saved.abt, saved.und, 0,
    )
}

// The state with this status word, and with PC at the mode's link less the correction.
#[tactic(auto, unfolding(crate::specs::Return::restored))]
fn restored(state: Guest, mode: u32, status: u32, correction: Signed) -> Guest
    ensures { result ≡ restored state mode status correction }
{
    let link = register(state.regs, link_register(mode) as usize);
    Guest {
        pc: difference(link, correction),
        status,
        ..state
    }
}

// The saved word that a return takes, or why it is refused. The state, which is large, stays out of the answer.
#[tactic(auto, unfolding(crate::specs::Return::return_answer))]
fn judged(state: Guest) -> Result<u32, ReturnRefusal>
    ensures { result ≡ judged state }
{
    if !sound(state.marks, state.status) {
        return Err(ReturnRefusal::UnsoundStatus);
    }
    let mode = field32(state.status as u64, 4, 0);
    if !banked(mode) {
        return Err(ReturnRefusal::NoSavedStatus);
    }
    let word = saved_of(mode, state.saved);
    if !sound(state.marks, word) {
        return Err(ReturnRefusal::UnsoundSaved);
    }
    Ok(word)
}

// The answer, with the state after it: a refusal's is the state that came. The correction is what was added to PC for the link.
#[tactic(auto, using(crate::proofs::Answers::took))]
pub fn resume(state: Guest, correction: Signed) -> Resumed
    ensures { Returning state correction result }
{
    match judged(state) {
        Ok(word) => {
            let mode = field32(state.status as u64, 4, 0);
            let after = restored(state, mode, word, correction);
            Resumed {
                answer: Ok(()),
                state: after,
            }
        }
        Err(refusal) => Resumed {
            answer: Err(refusal),
            state,
        },
    }
}
