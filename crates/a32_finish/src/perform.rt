// A described load or store finished, by value.
ghost use Rattle.std.specs.Prelude.{◌≡◌};
ghost use Rattle.a32_finish.specs.Finish.{gone_on, loaded, stored, performed, refusing};
ghost use Rattle.a32_finish.specs.Promise.{AccessPromise};
ghost use Rattle.data.specs.Data.{big_endian};

use crate::answer::{Finished, Moved, Outcome};
use crate::branch::branched;
use a32::{InstructionRefusal, bank_of, describe};
use a32_access::Access;
use a32_transfer::{Shape, addresses, given, landed, shape_of, written_back};
use bits::bit;
use exception::Guest;
use step::stepped;

fn big_endian(status: u32) -> bool
    ensures { result ≡ big_endian status }
{
    bit(status as u64, 9)
}

// The state past the instruction, which is 4 bytes long, or where a branch leads.
fn gone_on(state: Guest, regs: [u32; 31], branch: Option<u32>) -> Guest
    ensures { result ≡ gone_on state regs branch }
{
    let after = stepped(state, regs, true);
    match branch {
        Some(value) => branched(after, value),
        None => after,
    }
}

// The base is written back, and then the registers are loaded.
#[tactic(auto, unfolding(crate::specs::Finish::loaded))]
fn loaded(
    state: Guest,
    access: Access,
    shape: Shape,
    numbers: [u32; 16],
    values: [u32; 16],
) -> Guest
    ensures { result ≡ loaded state access shape numbers values }
{
    let bank = bank_of(state);
    let base = written_back(&bank, access);
    let to = landed(
        base,
        bank.mode,
        big_endian(state.status),
        shape,
        numbers,
        values,
        access.count,
    );
    gone_on(state, to.regs, to.branch)
}

// The base is written back: what is stored was read before that.
#[tactic(auto, unfolding(crate::specs::Finish::stored))]
fn stored(state: Guest, access: Access) -> Guest
    ensures { result ≡ stored state access }
{
    let base = written_back(&bank_of(state), access);
    stepped(state, base, true)
}

#[tactic(auto, unfolding(crate::specs::Finish::performed))]
fn performed(state: Guest, access: Access, numbers: [u32; 16], values: [u32; 16]) -> Finished
    ensures { result ≡ performed state access numbers values }
{
    let shape = shape_of(access.fields);
    let places = addresses(access.address, access.count);
    if shape.load {
        let after = loaded(state, access, shape, numbers, values);
        Finished {
            outcome: Outcome {
                answer: Ok(Moved::Loaded(access)),
                addresses: places,
                values: [0u32; 16],
            },
            state: after,
        }
    } else {
        let out = given(
            &bank_of(state),
            big_endian(state.status),
            shape.sas,
            numbers,
            access.count,
        );
        let after = stored(state, access);
        Finished {
            outcome: Outcome {
                answer: Ok(Moved::Stored(access)),
                addresses: places,
                values: out,
            },
            state: after,
        }
    }
}

fn refusing(refusal: InstructionRefusal, state: Guest) -> Finished
    ensures { result ≡ refusing refusal state }
{
    Finished {
        outcome: Outcome {
            answer: Err(refusal),
            addresses: [0u32; 16],
            values: [0u32; 16],
        },
        state,
    }
}

// The answer, with the state after it: a refusal's is the state that came. `values` are what the device gave to a load, in transfer order;
// a store doesn't look at them.
pub fn finish(state: Guest, word: u32, values: [u32; 16]) -> Finished
    ensures { AccessPromise state word values result }
{
    let described = describe(state, word);
    match described.answer {
        Ok(access) => performed(state, access, described.registers, values),
        Err(refusal) => refusing(refusal, state),
    }
}
