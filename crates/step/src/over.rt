// A trapped instruction stepped over, by value.
ghost use Rattle.std.specs.Prelude.{◌≡◌};
ghost use Rattle.step.specs.Over.{had, maintains, is_stepped_over, step_number};
ghost use Rattle.step.specs.Promise.{StepPromise};

use crate::condition::passes;
use crate::past::stepped;
use crate::refusal::{OnwardRefusal, onward_number};
use exception::Guest;
use record::{Origin, Record, Sort, head, sort};
use status::sound;

// What a call that goes on from a trapped instruction answers, with the state after it: a refusal's is the state that came.
#[derive(Clone, Copy)]
pub struct Onward<T> {
    pub answer: Result<T, OnwardRefusal>,
    pub state: Guest,
}

pub fn number(answer: Result<(), OnwardRefusal>) -> u32
    ensures { result ≡ step_number answer }
{
    match answer {
        Ok(()) => 0,
        Err(refusal) => onward_number(refusal),
    }
}

// Whether some edition has the record, from AArch32: the guest's state is.
pub fn had(what: Record) -> bool
    ensures { result ≡ had what }
{
    !(rule::editions(Origin::AArch32, what) == 0)
}

// Whether the record is a cache maintenance operation's: a data abort with CM 1, and not on a walk, after which it is repeated.
fn maintains(what: Record) -> bool
    ensures { result ≡ maintains what }
{
    if let Sort::DataAbort(abort) = sort(what) {
        abort.cm & !abort.s1ptw
    } else {
        false
    }
}

// WFI, WFE and SMC, a cache maintenance operation, and whatever doesn't count.
fn is_stepped_over(status: u32, what: Record) -> bool
    ensures { result ≡ is_stepped_over status what }
{
    let top = head(what);
    matches!(top.class, 0x01 | 0x13) | maintains(what) | !passes(status, what)
}

// The answer, with the state after it: a refusal's is the state that came.
#[tactic(auto, unfolding(crate::specs::Over::stepped_over))]
pub fn step_over(state: Guest, what: Record) -> Onward<()>
    ensures { StepPromise state what result }
{
    if !had(what) {
        return Onward {
            answer: Err(OnwardRefusal::NoEdition),
            state,
        };
    }
    let marks = state.marks;
    if !sound(marks, state.status) {
        return Onward {
            answer: Err(OnwardRefusal::UnsoundStatus),
            state,
        };
    }
    if !is_stepped_over(state.status, what) {
        return Onward {
            answer: Err(OnwardRefusal::NotThis),
            state,
        };
    }
    let regs = state.regs;
    let top = head(what);
    let after = stepped(state, regs, top.il);
    Onward {
        answer: Ok(()),
        state: after,
    }
}
