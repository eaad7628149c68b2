// A coprocessor read or write finished, by value.
ghost use Rattle.std.specs.Prelude.{◌≡◌};
ghost use Rattle.coprocessor.specs.Finish.{transfer_of, counted_of, one, two};
ghost use Rattle.coprocessor.specs.Promise.{TransferPromise};

use crate::answer::Moved;
use crate::nzcv::status_after;
use exception::{Guest, register, with_register};
use record::{Mcr, Mcrr, Record};
use status::sound;
use step::{Onward, OnwardRefusal, had, passes, stepped};

// The read or write that a record tells of: of one register, or of two.
#[derive(Clone, Copy)]
pub(crate) enum Transfer {
    One(Mcr),
    Two(Mcrr),
}

fn transfer_of(what: Record) -> Option<Transfer>
    ensures { result ≡ transfer_of what }
{
    match what {
        Record::Mcr(x) => Some(Transfer::One(x)),
        Record::Mcrr(x) => Some(Transfer::Two(x)),
        _ => None,
    }
}

// An instruction whose condition fails transfers nothing.
fn counted_of(status: u32, what: Record) -> Option<Transfer>
    ensures { result ≡ counted_of status what }
{
    if passes(status, what) {
        transfer_of(what)
    } else {
        None
    }
}

#[tactic(auto, unfolding(crate::specs::Finish::one))]
fn one(state: Guest, x: Mcr, value: u32) -> Onward<Moved>
    ensures { result ≡ one state x value }
{
    let regs = state.regs;
    let rt = x.rt as usize;
    if x.direction {
        let mut read = state;
        read.status = status_after(state.status, x.rt, value);
        let after = stepped(read, with_register(regs, rt, value), x.il);
        Onward {
            answer: Ok(Moved::Read),
            state: after,
        }
    } else {
        let given = register(regs, rt);
        let after = stepped(state, regs, x.il);
        Onward {
            answer: Ok(Moved::Written(given)),
            state: after,
        }
    }
}

#[tactic(auto, unfolding(crate::specs::Finish::two))]
fn two(state: Guest, x: Mcrr, first: u32, second: u32) -> Onward<Moved>
    ensures { result ≡ two state x first second }
{
    let regs = state.regs;
    let rt = x.rt as usize;
    let rt2 = x.rt2 as usize;
    if x.direction {
        let after = stepped(
            state,
            with_register(with_register(regs, rt, first), rt2, second),
            x.il,
        );
        Onward {
            answer: Ok(Moved::Read),
            state: after,
        }
    } else {
        let given = register(regs, rt);
        let given2 = register(regs, rt2);
        let after = stepped(state, regs, x.il);
        Onward {
            answer: Ok(Moved::WrittenTwo(given, given2)),
            state: after,
        }
    }
}

// The answer, with the state after it: a refusal's is the state that came. A read takes `first`, and one of two registers `second` too; a
// write looks at neither.
// Kept: tests 5 and 9 as in step_over: a shared function needs their order defined twice, with the state and without it.
#[tactic(auto, using(crate::proofs::Answers::one_taken, crate::proofs::Answers::two_taken), unfolding(crate::specs::Finish::finished))]
pub fn finish(state: Guest, what: Record, first: u32, second: u32) -> Onward<Moved>
    ensures { TransferPromise state what first second result }
{
    if !had(what) {
        return Onward {
            answer: Err(OnwardRefusal::NoEdition),
            state,
        };
    }
    let marks = state.marks;
    if !sound(marks, state.status) {
        return Onward {
            answer: Err(OnwardRefusal::UnsoundStatus),
            state,
        };
    }
    match counted_of(state.status, what) {
        None => Onward {
            answer: Err(OnwardRefusal::NotThis),
            state,
        },
        Some(Transfer::One(x)) => one(state, x, first),
        Some(Transfer::Two(x)) => two(state, x, first, second),
    }
}
