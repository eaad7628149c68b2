// A queue of waiting interrupts as a number: two bits for each kind that waits, the oldest in the lowest. 1 is an abort, 2 an FIQ and 3 an
// IRQ.
#![tactic(auto)]

ghost use Rattle.std.specs.Prelude.{◌≡◌};
ghost use Rattle.pending.specs.declared.Queue.{Queue};
ghost use Rattle.pending.specs.Reading.{list_of};
ghost use Rattle.pending_words.specs.Number.{kind_number, kind_of, queue_number, raised_by, waiting_from, waiting_in};

use pending::{Kind, Queue, empty, neighbour, raise};

// The number of a kind.
pub fn kind_number(kind: Kind) -> u32
    ensures { result ≡ kind_number kind }
{
    match kind {
        Kind::Abort => 1,
        Kind::Fiq => 2,
        Kind::Irq => 3,
    }
}

// The kind of a number.
#[tactic(auto, unfolding(crate::specs::Number::kind_of))]
pub fn kind_of(number: u32) -> Option<Kind>
    ensures { result ≡ kind_of number }
{
    match number {
        1 => Some(Kind::Abort),
        2 => Some(Kind::Fiq),
        3 => Some(Kind::Irq),
        _ => None,
    }
}

// The number of two that wait, and of three.
fn two(a: Kind, after: bool) -> u32
    ensures { result ≡ queue_number (list_of (Queue.Two a after)) }
{
    kind_number(a) + 4 * kind_number(neighbour(a, after))
}

fn three(a: Kind, after: bool) -> u32
    ensures { result ≡ queue_number (list_of (Queue.Three a after)) }
{
    kind_number(a) + 4 * kind_number(neighbour(a, after)) + 16 * kind_number(neighbour(a, !after))
}

// The number of a queue.
pub fn number_of(queue: Queue) -> u32
    ensures { result ≡ queue_number (list_of queue) }
{
    match queue {
        Queue::Empty => 0,
        Queue::One(a) => kind_number(a),
        Queue::Two(a, after) => two(a, after),
        Queue::Three(a, after) => three(a, after),
    }
}

// The queue after the kind of a number was raised. A number that is no kind's raises nothing.
#[tactic(auto, using(crate::proofs::Numbers::raised_kind, crate::proofs::Numbers::raised_none))]
pub fn raise_number(queue: Queue, kind: u32) -> Queue
    ensures { list_of result ≡ raised_by kind (list_of queue) }
{
    match kind_of(kind) {
        Some(kind) => raise(queue, kind),
        None => queue,
    }
}

// What waits in a number: the kinds of its pairs of bits, raised in turn, the lowest first. So every number is a queue's.
pub fn queue_of(number: u32) -> Queue
    ensures { list_of result ≡ waiting_in number }
{
    let mut queue = empty();
    let mut left = number;
    for _pair in 0..16u32 {
        queue = raise_number(queue, left % 4);
        left = left / 4;
    }
    queue
}
