// A delivery step: of the interrupts that wait for a guest, the oldest whose mask bit is 0 is injected into its state.
#![tactic(auto)]

ghost use Rattle.std.specs.Prelude.{◌≡◌};
ghost use Rattle.delivery.specs.Row.{row, delivery_row, correction_of};
ghost use Rattle.delivery.specs.Answer.{answer_number};
ghost use Rattle.delivery.specs.Deliver.{masks_of, faults_after, delivered_in};
ghost use Rattle.delivery.specs.Promise.{Delivering};

use bits::bit;
use exception::{FaultRegisters, Guest, Row, aligned, correction_in, enter};
use fault::asynchronous_dfsr;
use pending::{Kind, Masks, Queue, next};
use signed::Signed;
use status::{Mode, sound, t32};

// Why a step is refused.
#[derive(Clone, Copy, PartialEq, Eq)]
pub enum DeliveryRefusal {
    // The status word's mode, or a bit of its 24:21, is wrong.
    UnsoundStatus,
    // VBAR bits 4:0 are not zero.
    UnalignedVbar,
}

// A step's answer, the kind that it delivers or none where nothing waits whose mask bit is 0, and what waits after it.
#[derive(Clone, Copy)]
pub struct Outcome {
    pub answer: Result<Option<Kind>, DeliveryRefusal>,
    pub queue: Queue,
}

// Kept: a refusal gives queue and state back beside the answer (`Delivering`, specs/Promise.antt).
// A refusal, and a step that delivers nothing, leave the queue and the state as they came.
#[derive(Clone, Copy)]
pub struct Delivered {
    pub outcome: Outcome,
    pub state: Guest,
}

pub fn number(answer: Result<Option<Kind>, DeliveryRefusal>) -> u32
    ensures { result ≡ answer_number answer }
{
    match answer {
        Ok(_) => 0,
        Err(DeliveryRefusal::UnsoundStatus) => 9,
        Err(DeliveryRefusal::UnalignedVbar) => 10,
    }
}

// The mask bits of a status word.
fn masks_of(status: u32) -> Masks
    ensures { result ≡ masks_of status }
{
    Masks {
        a: bit(status as u64, 8),
        f: bit(status as u64, 6),
        i: bit(status as u64, 7),
    }
}

// Every delivery sets A, and corrects PC alike in both instruction sets.
fn row(mode: Mode, vector: u32, link: usize, f: bool, correction: u32) -> Row
    ensures { result ≡ row mode vector link f correction }
{
    Row {
        mode,
        vector,
        link,
        a: true,
        f,
        a32: Signed::Plus(correction),
        t32: Signed::Plus(correction),
    }
}

// The table of deliveries; a virtual abort's row is a data abort's.
fn delivery_row(kind: Kind) -> Row
    ensures { result ≡ delivery_row kind }
{
    match kind {
        Kind::Abort => row(Mode::Abort, 0x10, 20, false, 8),
        Kind::Fiq => row(Mode::Fiq, 0x1C, 30, true, 4),
        Kind::Irq => row(Mode::Irq, 0x18, 16, false, 4),
    }
}

// What a delivery adds to the PC of a state for its link: a return takes it away again.
pub fn correction(state: Guest, kind: Kind) -> Signed
    ensures { result ≡ correction_of state kind }
{
    correction_in(delivery_row(kind), t32(state.status))
}

// A virtual abort writes DFSR alone: it has no address. The domain that it passes on is 0.
fn faults_after(kind: Kind, old: FaultRegisters, ttbcr: u32) -> FaultRegisters
    ensures { result ≡ faults_after kind old ttbcr }
{
    match kind {
        Kind::Abort => FaultRegisters {
            dfsr: asynchronous_dfsr(0, ttbcr),
            ..old
        },
        Kind::Fiq | Kind::Irq => old,
    }
}

fn delivered_in(state: Guest, kind: Kind) -> Guest
    ensures { result ≡ delivered_in state kind }
{
    let faults = faults_after(kind, state.faults, state.ttbcr);
    enter(state, delivery_row(kind), faults)
}

// A step that moves nothing.
fn unmoved(answer: Result<Option<Kind>, DeliveryRefusal>, queue: Queue, state: Guest) -> Delivered
    ensures { result ≡ record { outcome = record { answer = answer; queue = queue }; state = state } }
{
    Delivered {
        outcome: Outcome { answer, queue },
        state,
    }
}

// The answer, with the queue and the state after it. The state is tested even if nothing waits.
pub fn deliver(queue: Queue, state: Guest) -> Delivered
    ensures { Delivering queue state result }
{
    if !sound(state.marks, state.status) {
        return unmoved(Err(DeliveryRefusal::UnsoundStatus), queue, state);
    }
    if !aligned(state.vbar) {
        return unmoved(Err(DeliveryRefusal::UnalignedVbar), queue, state);
    }
    match next(queue, masks_of(state.status)) {
        None => unmoved(Ok(None), queue, state),
        Some((kind, left)) => Delivered {
            outcome: Outcome {
                answer: Ok(Some(kind)),
                queue: left,
            },
            state: delivered_in(state, kind),
        },
    }
}
