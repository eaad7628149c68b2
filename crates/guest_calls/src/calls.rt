// The calls.
ghost use Rattle.std.specs.Prelude.{◌≡◌, unwrap_or};
ghost use Rattle.status.specs.Spsr.{spsr_number};
ghost use Rattle.delivery.specs.Answer.{plain_answer};
ghost use Rattle.state_words.specs.Words.{state_of};
ghost use Rattle.pending_words.specs.Number.{queue_number, raised_by, waiting_in};
ghost use Rattle.guest_calls.specs.Asked.{held_number, injection_of};
ghost use Rattle.guest_calls.specs.Calls.{marks_by, SavedWord, WrittenWord, Injecting, injection_correction, delivered_by, Delivering};
ghost use Rattle.guest_calls.specs.Calls.{delivery_correction, Returning};

use crate::asked::injection_of;
use delivery::DeliveryRefusal;
use pending::Kind;
use pending_words::{kind_number, kind_of, number_of, queue_of, raise_number};
use signed::{Signed, sum};
use state_words::{is_mark, state_of, words_of};
use status::Marks;

// What stands for a register that is held nowhere.
const NOWHERE: u32 = 0xFFFF_FFFF;

// The AArch64 number of a register of a mode.
pub fn knucklepin_held_in(mode: u32, number: u32) -> u32
    ensures { result ≡ held_number mode number }
{
    status::held_in(mode, number).unwrap_or(NOWHERE)
}

// The marks of a guest, by three numbers.
fn marks_by(pan: u32, ssbs: u32, dit: u32) -> Marks
    ensures { result ≡ marks_by pan ssbs dit }
{
    Marks {
        pan: is_mark(pan),
        ssbs: is_mark(ssbs),
        dit: is_mark(dit),
    }
}

// Puts a word in its place, 0 where there is none, and gives the number of the answer.
fn put(word: Option<u32>, place: &mut u32) -> u32
    ensures number { result ≡ spsr_number word }
    ensures word { place.new ≡ unwrap_or word 0 }
{
    match word {
        Some(word) => {
            *place = word;
            0
        }
        None => {
            *place = 0;
            9
        }
    }
}

// The guest's status word, from the word that the hypervisor saved of it.
pub fn knucklepin_from_spsr(pan: u32, ssbs: u32, dit: u32, spsr: u32, status: &mut u32) -> u32
    ensures { SavedWord pan ssbs dit spsr result status.new }
{
    put(status::from_spsr(marks_by(pan, ssbs, dit), spsr), status)
}

// The word to write into SPSR_EL2, from the guest's status word.
pub fn knucklepin_to_spsr(pan: u32, ssbs: u32, dit: u32, status: u32, spsr: &mut u32) -> u32
    ensures { WrittenWord pan ssbs dit status result spsr.new }
{
    put(status::to_spsr(marks_by(pan, ssbs, dit), status), spsr)
}

// Injects an exception.
pub fn knucklepin_inject(
    state: &mut [u32; 48],
    injection: u32,
    fault: u32,
    level: u32,
    address: u64,
    write: u32,
    domain: u32,
) -> u32
    ensures { Injecting state.old (injection_of injection fault level address write domain) result state.new }
{
    let words = *state;
    let what = injection_of(injection, fault, level, address, write, domain);
    let done = guest::inject(state_of(words), what);
    *state = words_of(words, done.state);
    guest::number(done.answer)
}

// The number of a data abort, the last of the injections.
const LAST_INJECTION: u32 = 4;

// What an injection adds to PC for its link, modulo 2^32.
#[tactic(auto, unfolding(crate::specs::Calls::injection_correction))]
pub fn knucklepin_injection_correction(state: &[u32; 48], injection: u32) -> u32
    ensures { result ≡ injection_correction (state_of state.now) injection }
{
    if LAST_INJECTION < injection {
        return 0;
    }
    let what = injection_of(injection, 0, 0, 0, 0, 0);
    sum(0, guest::correction(state_of(*state), what))
}

// A queue after the kind of a number was raised.
pub fn knucklepin_raise(queue: u32, kind: u32) -> u32
    ensures { result ≡ queue_number (raised_by kind (waiting_in queue)) }
{
    number_of(raise_number(queue_of(queue), kind))
}

fn delivered_number(answer: Result<Option<Kind>, DeliveryRefusal>) -> u32
    ensures { result ≡ delivered_by (plain_answer answer) }
{
    match answer {
        Ok(Some(kind)) => kind_number(kind),
        Ok(None) | Err(_) => 0,
    }
}

// Makes a delivery step: `pending` is the queue, and then what was delivered.
pub fn knucklepin_deliver(state: &mut [u32; 48], pending: &mut [u32; 2]) -> u32
    ensures { Delivering state.old pending.old result state.new pending.new }
{
    let words = *state;
    let step = delivery::deliver(queue_of(pending[0]), state_of(words));
    let outcome = step.outcome;
    *state = words_of(words, step.state);
    *pending = [number_of(outcome.queue), delivered_number(outcome.answer)];
    delivery::number(outcome.answer)
}

// What the delivery of a kind adds to PC for its link, modulo 2^32.
#[tactic(auto, unfolding(crate::specs::Calls::delivery_correction, pending_words::specs::Number::kind_of))]
pub fn knucklepin_delivery_correction(state: &[u32; 48], kind: u32) -> u32
    ensures { result ≡ delivery_correction (state_of state.now) kind }
{
    match kind_of(kind) {
        Some(kind) => sum(0, delivery::correction(state_of(*state), kind)),
        None => 0,
    }
}

// Returns the guest from an exception.
pub fn knucklepin_resume(state: &mut [u32; 48], correction: u32) -> u32
    ensures { Returning state.old correction result state.new }
{
    let words = *state;
    let back = resume::resume(state_of(words), Signed::Plus(correction));
    *state = words_of(words, back.state);
    resume::number(back.answer)
}
