// An injection and the return right after it. Beside it the laws of the return after each injection and each delivery, and after a whole
// nest of them.
#![tactic(auto)]

ghost use Rattle.std.specs.Prelude.{◌≡◌};
ghost use Rattle.nest.specs.Back.{answer_number, GoingBack};

use exception::Guest;
use guest::{Injection, InjectionRefusal};
use resume::ReturnRefusal;

// Why an injection and its return don't bring the first state back: what refuses the injection, or else the return.
#[derive(Clone, Copy, PartialEq, Eq)]
pub enum NestRefusal {
    Injection(InjectionRefusal),
    Return(ReturnRefusal),
}

// Kept: a refusal gives the state back beside the answer (`refused_untouched`, proofs/Backs.antt), so that `?` would lose it.
#[derive(Clone, Copy)]
pub struct Back {
    pub answer: Result<(), NestRefusal>,
    pub state: Guest,
}

pub fn number(answer: Result<(), NestRefusal>) -> u32
    ensures { result ≡ answer_number answer }
{
    match answer {
        Ok(()) => 0,
        Err(NestRefusal::Injection(refusal)) => guest::number(Err(refusal)),
        Err(NestRefusal::Return(refusal)) => resume::number(Err(refusal)),
    }
}

// C-22 beside running code: injects, and returns right after it with that injection's correction. The first state comes again, but for the
// saved status and link register of the mode entered and the fault registers written; a refusal's is the state that came.
pub fn inject_and_resume(state: Guest, what: Injection) -> Back
    ensures { GoingBack state what result }
{
    let done = guest::inject(state, what);
    match done.answer {
        Ok(()) => {
            let back = resume::resume(done.state, guest::correction(state, what));
            Back {
                answer: back.answer.map_err(|refusal| NestRefusal::Return(refusal)),
                state: back.state,
            }
        }
        Err(refusal) => Back {
            answer: Err(NestRefusal::Injection(refusal)),
            state,
        },
    }
}
