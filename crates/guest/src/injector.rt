// An injection into a guest's state, by value.
ghost use Rattle.std.specs.Prelude.{◌≡◌};
ghost use Rattle.guest.specs.Promise.{Injecting};
ghost use Rattle.guest.specs.Inner.{judged};

use crate::answer::InjectionRefusal;
use crate::injection::{Injection, injection_row};
use crate::report::report_of;
use exception::{FaultRegisters, Guest, aligned, enter};
use status::sound;

// Kept: a refusal gives the state back beside the answer (`refused_untouched`, proofs/Answers.antt).
#[derive(Clone, Copy)]
pub struct Injected {
    pub answer: Result<(), InjectionRefusal>,
    pub state: Guest,
}

// The fault registers after an injection, or why it is refused. The state, which is large, stays out of the answer.
#[tactic(auto, unfolding(crate::specs::Inject::injection_answer))]
fn judged(state: Guest, what: Injection) -> Result<FaultRegisters, InjectionRefusal>
    ensures { result ≡ judged state what }
{
    if !sound(state.marks, state.status) {
        return Err(InjectionRefusal::UnsoundStatus);
    }
    if !aligned(state.vbar) {
        return Err(InjectionRefusal::UnalignedVbar);
    }
    report_of(what, state.faults, state.ttbcr)
}

// The answer, with the state after it: a refusal's is the state that came.
#[tactic(auto, using(crate::proofs::Outcome::took, crate::proofs::Outcome::refused))]
pub fn inject(state: Guest, what: Injection) -> Injected
    ensures { Injecting state what result }
{
    match judged(state, what) {
        Ok(faults) => {
            let after = enter(state, injection_row(what), faults);
            Injected {
                answer: Ok(()),
                state: after,
            }
        }
        Err(refusal) => Injected {
            answer: Err(refusal),
            state,
        },
    }
}
