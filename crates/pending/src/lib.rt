// Interrupts that wait for a guest: the queue of them, which knows nothing of the guest's state.
#![tactic(auto)]

ghost use Rattle.std.specs.Prelude.{◌≡◌, cond, [], Some, None};
ghost use Rattle.pending.specs.Plain.{raised, chosen};
ghost use Rattle.pending.specs.Reading.{neighbour, list_of, mask_in, choice_of};

// What may wait.
#[derive(Clone, Copy, PartialEq, Eq)]
pub enum Kind {
    Abort,
    Fiq,
    Irq,
}

// The kinds that wait, the oldest first. Each of the three kinds has two neighbours in the round abort, FIQ, IRQ, so that no value
// of this type has a kind twice.
// Kept: no heap, and no value has a kind twice (`no_repeats`, `one_queue`, proofs/Queues.antt), as one of a list of kinds may.
#[derive(Clone, Copy)]
pub enum Queue {
    Empty,
    One(Kind),
    // The oldest, and then its neighbour: the one after it in the round, or else the one before it.
    Two(Kind, bool),
    // The same, and then the other neighbour.
    Three(Kind, bool),
}

// The mask bits of a status word: a kind is delivered only where its own is 0.
#[derive(Clone, Copy)]
pub struct Masks {
    pub a: bool,
    pub f: bool,
    pub i: bool,
}

pub fn empty() -> Queue
    ensures { list_of result ≡ [] }
{
    Queue::Empty
}

// The one after a kind in the round, or the one before it.
pub fn neighbour(kind: Kind, after: bool) -> Kind
    ensures { result ≡ neighbour kind after }
{
    match kind {
        Kind::Abort => { if after { Kind::Fiq } else { Kind::Irq } }
        Kind::Fiq => { if after { Kind::Irq } else { Kind::Abort } }
        Kind::Irq => { if after { Kind::Abort } else { Kind::Fiq } }
    }
}

// A kind that waits keeps its place, and every other goes to the end.
pub fn raise(queue: Queue, kind: Kind) -> Queue
    ensures { list_of result ≡ raised kind (list_of queue) }
{
    match queue {
        Queue::Empty => Queue::One(kind),
        Queue::One(a) => {
            if kind == a {
                Queue::One(a)
            } else {
                Queue::Two(a, kind == neighbour(a, true))
            }
        }
        Queue::Two(a, after) => {
            let b = neighbour(a, after);
            if (kind == a) | (kind == b) {
                Queue::Two(a, after)
            } else {
                Queue::Three(a, after)
            }
        }
        Queue::Three(a, after) => Queue::Three(a, after),
    }
}

// The kind's mask bit.
fn mask_in(masks: Masks, kind: Kind) -> bool
    ensures { result ≡ mask_in masks kind }
{
    match kind {
        Kind::Abort => masks.a,
        Kind::Fiq => masks.f,
        Kind::Irq => masks.i,
    }
}

// The kind with the queue that it leaves, where its mask bit is 0.
fn opened(masks: Masks, kind: Kind, left: Queue) -> Option<(Kind, Queue)>
    ensures { result ≡ cond (mask_in masks kind) None (Some (kind, left)) }
{
    if mask_in(masks, kind) {
        None
    } else {
        Some((kind, left))
    }
}

// The oldest whose mask bit is 0, with the queue that it leaves.
#[tactic(auto, using(crate::proofs::Choices::one_chosen))]
pub fn next(queue: Queue, masks: Masks) -> Option<(Kind, Queue)>
    ensures { choice_of result ≡ chosen (mask_in masks) (list_of queue) }
{
    match queue {
        Queue::Empty => None,
        Queue::One(a) => opened(masks, a, Queue::Empty),
        Queue::Two(a, after) => {
            let b = neighbour(a, after);
            let first = opened(masks, a, Queue::One(b));
            let second = opened(masks, b, Queue::One(a));
            first.or(second)
        }
        Queue::Three(a, after) => {
            let b = neighbour(a, after);
            let c = neighbour(a, !after);
            let first = opened(masks, a, Queue::Two(b, after));
            let second = opened(masks, b, Queue::Two(a, !after));
            let third = opened(masks, c, Queue::Two(a, after));
            first.or(second).or(third)
        }
    }
}
