// Every action on a guest's state, as one call by value.
#![tactic(auto)]

ghost use Rattle.std.specs.Prelude.{◌≡◌};
ghost use Rattle.act.specs.Acting.{Acting, outcome_number};

use delivery::deliver;
use exception::Guest;
use guest::{Injection, InjectionRefusal, inject};
use pending::Queue;
use record::Record;
use resume::{ReturnRefusal, resume};
use signed::Signed;
use step::{OnwardRefusal, step_over};

#[derive(Clone, Copy)]
pub enum Action {
    Inject(Injection),
    Deliver(Queue),
    Resume(Signed),
    StepOver(Record),
    Finish(Record, u32),
    Coprocessor(Record, u32, u32),
}

// What each action answers.
#[derive(Clone, Copy)]
pub enum Outcome {
    Injected(Result<(), InjectionRefusal>),
    Delivered(delivery::Outcome),
    Resumed(Result<(), ReturnRefusal>),
    SteppedOver(Result<(), OnwardRefusal>),
    Finished(Result<device::Moved, OnwardRefusal>),
    Coprocessor(Result<coprocessor::Moved, OnwardRefusal>),
}

#[derive(Clone, Copy)]
pub struct Acted {
    pub outcome: Outcome,
    pub state: Guest,
}

// The answer and the state are those of the action's own call.
pub fn act(state: Guest, action: Action) -> Acted
    ensures { Acting state action result }
{
    match action {
        Action::Inject(what) => {
            let injected = inject(state, what);
            Acted {
                outcome: Outcome::Injected(injected.answer),
                state: injected.state,
            }
        }
        Action::Deliver(queue) => {
            let delivered = deliver(queue, state);
            Acted {
                outcome: Outcome::Delivered(delivered.outcome),
                state: delivered.state,
            }
        }
        Action::Resume(correction) => {
            let resumed = resume(state, correction);
            Acted {
                outcome: Outcome::Resumed(resumed.answer),
                state: resumed.state,
            }
        }
        Action::StepOver(what) => {
            let stepped = step_over(state, what);
            Acted {
                outcome: Outcome::SteppedOver(stepped.answer),
                state: stepped.state,
            }
        }
        Action::Finish(what, value) => {
            let finished = device::finish(state, what, value);
            Acted {
                outcome: Outcome::Finished(finished.answer),
                state: finished.state,
            }
        }
        Action::Coprocessor(what, first, second) => {
            let finished = coprocessor::finish(state, what, first, second);
            Acted {
                outcome: Outcome::Coprocessor(finished.answer),
                state: finished.state,
            }
        }
    }
}

// The number of any answer.
pub fn number(outcome: Outcome) -> u32
    ensures { result ≡ outcome_number outcome }
{
    match outcome {
        Outcome::Injected(answer) => guest::number(answer),
        Outcome::Delivered(delivered) => delivery::number(delivered.answer),
        Outcome::Resumed(answer) => resume::number(answer),
        Outcome::SteppedOver(answer) => step::number(answer),
        Outcome::Finished(answer) => device::number(answer),
        Outcome::Coprocessor(answer) => coprocessor::number(answer),
    }
}
