// An access finished, by value.
ghost use Rattle.std.specs.Prelude.{◌≡◌};
ghost use Rattle.device.specs.Finish.{described_of, accessed};
ghost use Rattle.device.specs.Promise.{FinishPromise};

use crate::answer::Moved;
use bits::bit;
use data::{extended, transferred};
use exception::{Guest, register, with_register};
use record::{DataAbort, Record, Sort};
use status::sound;
use step::{Onward, OnwardRefusal, had, stepped};

// The access that a record describes: that of a data abort with ISV 1.
fn described_of(what: Record) -> Option<DataAbort>
    ensures { result ≡ described_of what }
{
    match record::sort(what) {
        Sort::DataAbort(abort) if abort.isv => Some(abort),
        _ => None,
    }
}

#[tactic(auto, unfolding(crate::specs::Finish::accessed))]
fn accessed(state: Guest, abort: DataAbort, value: u32) -> Onward<Moved>
    ensures { result ≡ accessed state abort value }
{
    let regs = state.regs;
    let big = bit(state.status as u64, 9);
    let srt = abort.srt as usize;
    if abort.wnr {
        let given = transferred(abort.sas, big, register(regs, srt));
        let after = stepped(state, regs, abort.il);
        Onward {
            answer: Ok(Moved::Stored(given)),
            state: after,
        }
    } else {
        let got = extended(abort.sas, abort.sse, transferred(abort.sas, big, value));
        let after = stepped(state, with_register(regs, srt, got), abort.il);
        Onward {
            answer: Ok(Moved::Loaded),
            state: after,
        }
    }
}

// The answer, with the state after it: a refusal's is the state that came. A store doesn't look at the value. The guest's state is
// AArch32's, and so is the record.
// Kept: tests 5 and 9 as in step_over: a shared function needs their order defined twice, with the state and without it.
#[tactic(auto, using(crate::proofs::Answers::finished_access), unfolding(crate::specs::Finish::finished))]
pub fn finish(state: Guest, what: Record, value: u32) -> Onward<Moved>
    ensures { FinishPromise state what value result }
{
    if !had(what) {
        return Onward {
            answer: Err(OnwardRefusal::NoEdition),
            state,
        };
    }
    let marks = state.marks;
    if !sound(marks, state.status) {
        return Onward {
            answer: Err(OnwardRefusal::UnsoundStatus),
            state,
        };
    }
    match described_of(what) {
        None => Onward {
            answer: Err(OnwardRefusal::NotThis),
            state,
        },
        Some(abort) => accessed(state, abort, value),
    }
}
