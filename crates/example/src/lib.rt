// A monitor's answer to a trap of its guest, which has one emulated card: a start for a monitor of your own.
#![tactic(auto, using(crate::proofs::Calls::resumed))]

ghost use Rattle.std.specs.Prelude.{◌≡◌};
ghost use Rattle.example.specs.Gone.{Resuming, by_access, injecting, finishing, describing, stepping, gone};
ghost use Rattle.example.specs.Answered.{answered};

mod refusals;
mod way;

use a32_access::Access;
use device::Moved;
use guest::{Guest, Injection};
use record::{Origin, Record};
pub use refusals::{Refusal, number};
use registers::{Esr, Far, Hpfar};
use step::OnwardRefusal;
use way::Way;

// What the monitor does next.
#[derive(Clone, Copy)]
pub enum Next {
    // The guest goes on, in the state beside this.
    Resume,
    // So it does, and the card gets this value.
    Give(u32),
    // The card is asked for what this access loads, in transfer order, and then `a32_finish::finish` goes on.
    Perform(Access),
}

// A refusal's state is the one that came: nothing was done.
#[derive(Clone, Copy)]
pub struct Answered {
    pub next: Result<Next, Refusal>,
    pub state: Guest,
}

// The guest goes on after a call that leaves nothing to do.
fn resuming<E, R: From<E>>(answer: Result<(), E>) -> Result<Next, R>
    ensures { Resuming R.from_gives answer result }
{
    answer?;
    Ok(Next::Resume)
}

// A store that is finished gives the card its value.
fn by_access(answer: Result<Moved, OnwardRefusal>) -> Result<Next, Refusal>
    ensures { result ≡ by_access answer }
{
    match answer? {
        Moved::Loaded => Ok(Next::Resume),
        Moved::Stored(given) => Ok(Next::Give(given)),
    }
}

// The guest gets an exception.
fn injected(state: Guest, what: Injection) -> Answered
    ensures { result ≡ injecting state what }
{
    let done = guest::inject(state, what);
    Answered {
        next: resuming(done.answer),
        state: done.state,
    }
}

// The chip described the access (ISV 1): it is finished with the card's value.
fn finished(state: Guest, what: Record, value: u32) -> Answered
    ensures { result ≡ finishing state what value }
{
    let done = device::finish(state, what, value);
    Answered {
        next: by_access(done.answer),
        state: done.state,
    }
}

// The chip described nothing (ISV 0): the instruction word at the guest's PC does, or the guest gets the abort.
fn described(state: Guest, word: u32, abort: Injection) -> Answered
    ensures { result ≡ describing state word abort }
{
    let done = a32::describe(state, word);
    match done.answer {
        Ok(access) => Answered {
            next: Ok(Next::Perform(access)),
            state,
        },
        Err(_) => injected(state, abort),
    }
}

// Nothing is left of the instruction to do: the guest goes on past it.
fn stepped(state: Guest, what: Record) -> Answered
    ensures { result ≡ stepping state what }
{
    let done = step::step_over(state, what);
    Answered {
        next: resuming(done.answer),
        state: done.state,
    }
}

fn gone(state: Guest, way: Way, what: Record, word: u32, value: u32) -> Answered
    ensures { result ≡ gone state what word value way }
{
    match way {
        Way::Inject(exception) => injected(state, exception),
        Way::Finish => finished(state, what, value),
        Way::Describe(abort) => described(state, word, abort),
        Way::StepOver => stepped(state, what),
        Way::Leave => Answered {
            next: Ok(Next::Resume),
            state,
        },
    }
}

// Answers a trap: `word` is the instruction at the guest's PC, and `value` what the card gives to a load.
pub fn answer(
    state: Guest,
    edition: u32,
    esr: Esr,
    far: Far,
    hpfar: Hpfar,
    word: u32,
    value: u32,
) -> Answered
    ensures { result ≡ answered state edition esr far hpfar word value }
{
    match trap::read(Origin::AArch32, edition, esr, far, hpfar) {
        Ok(trap) => {
            let seen = way::seen_in(trap);
            let way = way::way_of(state.status, seen);
            gone(state, way, seen.what, word, value)
        }
        Err(refusal) => Answered {
            next: Err(refusal.into()),
            state,
        },
    }
}
