// A32 loads and stores that the chip doesn't describe (ISV 0), for other languages: described and finished in a state of 48 words.
#![tactic(auto)]

ghost use Rattle.std.specs.Prelude.{◌≡◌};
ghost use Rattle.state_words.specs.Words.{state_of};
ghost use Rattle.a32_calls.specs.Calls.{access_told, DescribedWords, transfer_told, FinishedWords};

use a32::InstructionRefusal;
use a32_access::Access;
use a32_finish::Moved;
use a32_words::access_words;
use state_words::{state_of, words_of};

// An access that is described, and zeros on a refusal.
fn access_told(answer: Result<Access, InstructionRefusal>) -> [u32; 16]
    ensures { result ≡ access_told answer }
{
    match answer {
        Ok(access) => access_words(access),
        Err(_) => [0u32; 16],
    }
}

// Describes an instruction.
pub fn knucklepin_a32_describe(
    state: &[u32; 48],
    word: u32,
    access: &mut [u32; 16],
    registers: &mut [u32; 16],
) -> u32
    ensures { DescribedWords (state_of state.now) word result access.new registers.new }
{
    let described = a32::describe(state_of(*state), word);
    let numbers = described.registers;
    *access = access_told(described.answer);
    *registers = numbers;
    a32::number(described.answer)
}

// Whether a store was made, and how many registers were transferred.
fn transfer_told(answer: Result<Moved, InstructionRefusal>) -> [u32; 2]
    ensures { result ≡ transfer_told answer }
{
    match answer {
        Ok(Moved::Loaded(access)) => [0, access.count],
        Ok(Moved::Stored(access)) => [1, access.count],
        Err(_) => [0, 0],
    }
}

// Finishes a load or store.
pub fn knucklepin_a32_finish(
    state: &mut [u32; 48],
    word: u32,
    values: &[u32; 16],
    transfer: &mut [u32; 2],
    addresses: &mut [u32; 16],
    given: &mut [u32; 16],
) -> u32
    ensures { FinishedWords state.old word values.now result state.new transfer.new addresses.new given.new }
{
    let words = *state;
    let done = a32_finish::finish(state_of(words), word, *values);
    let outcome = done.outcome;
    let places = outcome.addresses;
    let out = outcome.values;
    *state = words_of(words, done.state);
    *transfer = transfer_told(outcome.answer);
    *addresses = places;
    *given = out;
    a32_finish::number(outcome.answer)
}
