// Going on from a trap for other languages: an instruction stepped over, a load or store finished, a coprocessor read or write finished, in
// a state of 48 words that the caller lends. A record is sixteen words.
#![tactic(auto)]

ghost use Rattle.std.specs.Prelude.{◌≡◌};
ghost use Rattle.step.specs.Condition.{passes};
ghost use Rattle.record_words.specs.Words.{flag};
ghost use Rattle.record_of_words.specs.Reading.{record_of};
ghost use Rattle.onward_calls.specs.Calls.{Stepping, stored_in, Finishing, first_in, second_in, Transferring};

use record_of_words::record_of;
use state_words::{state_of, words_of};
use step::OnwardRefusal;

// Whether a trapped instruction counts.
pub fn knucklepin_passes(status: u32, syndrome: &[u32; 16]) -> u32
    ensures { result ≡ flag (passes status (record_of syndrome.now)) }
{
    step::passes(status, record_of(*syndrome)) as u32
}

// Steps over an instruction.
pub fn knucklepin_step_over(state: &mut [u32; 48], syndrome: &[u32; 16]) -> u32
    ensures { Stepping state.old (record_of syndrome.now) result state.new }
{
    let words = *state;
    let over = step::step_over(state_of(words), record_of(*syndrome));
    *state = words_of(words, over.state);
    step::number(over.answer)
}

// What a store gives the device.
fn stored_in(answer: Result<device::Moved, OnwardRefusal>) -> u32
    ensures { result ≡ stored_in answer }
{
    match answer {
        Ok(device::Moved::Stored(value)) => value,
        _ => 0,
    }
}

// Finishes a load or store.
pub fn knucklepin_finish(
    state: &mut [u32; 48],
    syndrome: &[u32; 16],
    value: u32,
    given: &mut u32,
) -> u32
    ensures { Finishing state.old (record_of syndrome.now) value result state.new given.new }
{
    let words = *state;
    let done = device::finish(state_of(words), record_of(*syndrome), value);
    *state = words_of(words, done.state);
    *given = stored_in(done.answer);
    device::number(done.answer)
}

// What Rt, and what Rt2, holds that is written.
// Kept: two functions, as specs/Calls.antt has two definitions, first_in and second_in, and documents name both.
fn first_in(answer: Result<coprocessor::Moved, OnwardRefusal>) -> u32
    ensures { result ≡ first_in answer }
{
    match answer {
        Ok(coprocessor::Moved::Written(value)) => value,
        Ok(coprocessor::Moved::WrittenTwo(first, _)) => first,
        _ => 0,
    }
}

fn second_in(answer: Result<coprocessor::Moved, OnwardRefusal>) -> u32
    ensures { result ≡ second_in answer }
{
    match answer {
        Ok(coprocessor::Moved::WrittenTwo(_, second)) => second,
        _ => 0,
    }
}

// Finishes a coprocessor read or write.
pub fn knucklepin_coprocessor_finish(
    state: &mut [u32; 48],
    syndrome: &[u32; 16],
    first: u32,
    second: u32,
    given: &mut [u32; 2],
) -> u32
    ensures { Transferring state.old (record_of syndrome.now) first second result state.new given.new }
{
    let words = *state;
    let done = coprocessor::finish(state_of(words), record_of(*syndrome), first, second);
    *state = words_of(words, done.state);
    *given = [first_in(done.answer), second_in(done.answer)];
    coprocessor::number(done.answer)
}
