// `run STATE CALL ..`: pending::raise, and by way of act::act delivery::deliver, guest::inject and resume::resume, at most 24 calls that
// start with nothing waiting.
use act::{Action, Outcome};
use delivery::DeliveryRefusal;
use exception::Guest;
use guest::Injection;
use guest_calls::injection_of;
use pending::{Kind, Queue};
use rows::{Reply, Row, long, no_row, with, word};
use signed::Signed;
use state_words::{state_of, words_of};
use std::num::wrapping_add_usize;

// No place of a state: it ends a list of changes.
const END: u64 = 48;

// A run as far as it has been made.
#[derive(Clone, Copy)]
struct Run {
    // The state as it stands now.
    words: [u32; 48],
    // Where the next call begins in the row.
    at: usize,
    queue: Queue,
    reply: Reply,
    // Whether all so far is a run's beginning.
    good: bool,
}

fn start(row: Row) -> Run {
    Run {
        words: rows::words(row, 0),
        at: 48,
        queue: pending::empty(),
        reply: no_row(),
        good: rows::are_words(row, 0, 48),
    }
}

// Whether words stand some places on.
fn are_words(row: Row, run: Run, from: usize, to: usize) -> bool {
    let at = run.at;
    rows::are_words(
        row,
        wrapping_add_usize(at, from),
        wrapping_add_usize(at, to),
    )
}

// The number that stands some places on, and its lower 32 bits.
fn number(row: Row, run: Run, places: usize) -> u64 {
    long(row, wrapping_add_usize(run.at, places))
}

fn narrow(row: Row, run: Run, places: usize) -> u32 {
    word(row, wrapping_add_usize(run.at, places))
}

fn skipped(run: Run, places: usize) -> Run {
    let mut next = run;
    next.at = wrapping_add_usize(next.at, places);
    next
}

fn malformed(run: Run) -> Run {
    let mut next = run;
    next.good = false;
    next
}

fn raised(run: Run, kind: Kind) -> Run {
    let words = run.words;
    let before = run.queue;
    let reply = run.reply;
    let queue = pending::raise(before, kind);
    Run {
        words,
        at: wrapping_add_usize(run.at, 2),
        queue,
        reply: with(reply, 0),
        good: run.good,
    }
}

// `0 KIND`.
fn raise(row: Row, run: Run) -> Run {
    match number(row, run, 1) {
        0 => raised(run, Kind::Abort),
        1 => raised(run, Kind::Fiq),
        2 => raised(run, Kind::Irq),
        _ => malformed(run),
    }
}

fn with_word(words: [u32; 48], place: u64, value: u32) -> [u32; 48] {
    let mut next = words;
    if place < END {
        next[place as usize] = value;
    }
    next
}

// `PLACE VALUE`.
fn change(row: Row, run: Run) -> Run {
    let place = number(row, run, 0);
    let before = run.words;
    let words = with_word(before, place, narrow(row, run, 1));
    let mut next = skipped(run, 2);
    next.words = words;
    next.good = next.good & (place < END) & are_words(row, run, 1, 2);
    next
}

// Changes up to their end. A row has room for fewer than 128.
fn changes(row: Row, run: Run) -> Run {
    let mut next = run;
    for _ in 0..128 {
        if number(row, next, 0) == END {
            return skipped(next, 1);
        }
        next = change(row, next);
    }
    malformed(next)
}

fn kind_name(kind: Kind) -> u64 {
    match kind {
        Kind::Abort => 1,
        Kind::Fiq => 2,
        Kind::Irq => 3,
    }
}

fn name(answer: Result<Option<Kind>, DeliveryRefusal>) -> u64 {
    match answer {
        Ok(Some(kind)) => kind_name(kind),
        _ => 0,
    }
}

// A run after a call that has said something. What the call changed in the state is told, and stands in the state of the next one.
fn left(run: Run, queue: Queue, said: Reply, after: Guest) -> Run {
    let before = run.words;
    let words = words_of(before, after);
    Run {
        words,
        at: run.at,
        queue,
        reply: with(rows::with_changes(said, before, words), END),
        good: run.good,
    }
}

fn delivered(run: Run, outcome: delivery::Outcome, after: Guest) -> Run {
    let reply = run.reply;
    let answer = outcome.answer;
    let queue = outcome.queue;
    let said = with(with(reply, delivery::number(answer) as u64), name(answer));
    left(run, queue, said, after)
}

// `1 CHANGE .. 30`.
fn step(row: Row, run: Run) -> Run {
    let asked = changes(row, skipped(run, 1));
    let queue = asked.queue;
    let words = asked.words;
    let done = act::act(state_of(words), Action::Deliver(queue));
    let outcome = done.outcome;
    let after = done.state;
    match outcome {
        Outcome::Delivered(outcome) => delivered(asked, outcome, after),
        _ => malformed(run),
    }
}

// A correction is told by its sign, 0 or 1 for minus, and its size.
fn with_correction(reply: Reply, correction: Signed) -> Reply {
    match correction {
        Signed::Plus(n) => with(with(reply, 0), n as u64),
        Signed::Minus(n) => with(with(reply, 1), n as u64),
    }
}

fn injected(run: Run, what: Injection) -> Run {
    let words = run.words;
    let queue = run.queue;
    let reply = run.reply;
    let before = state_of(words);
    let correction = guest::correction(before, what);
    let done = act::act(before, Action::Inject(what));
    let outcome = done.outcome;
    let after = done.state;
    let said = with_correction(with(reply, act::number(outcome) as u64), correction);
    left(skipped(run, 7), queue, said, after)
}

// `2 KIND FAULT LEVEL ADDRESS WRITE DOMAIN`, all but the address of 32 bits. The kind must be one: no call tells the correction of another.
fn inject(row: Row, run: Run) -> Run {
    let words = are_words(row, run, 1, 4) & are_words(row, run, 5, 7);
    if !(words & (narrow(row, run, 1) < 5)) {
        return malformed(run);
    }
    injected(
        run,
        injection_of(
            narrow(row, run, 1),
            narrow(row, run, 2),
            narrow(row, run, 3),
            number(row, run, 4),
            narrow(row, run, 5),
            narrow(row, run, 6),
        ),
    )
}

fn returned(run: Run, correction: Signed) -> Run {
    let words = run.words;
    let queue = run.queue;
    let reply = run.reply;
    let done = act::act(state_of(words), Action::Resume(correction));
    let outcome = done.outcome;
    let after = done.state;
    let said = with(reply, act::number(outcome) as u64);
    left(skipped(run, 3), queue, said, after)
}

// `3 SIGN SIZE`.
fn go_back(row: Row, run: Run) -> Run {
    let size = narrow(row, run, 2);
    if !are_words(row, run, 2, 3) {
        return malformed(run);
    }
    match number(row, run, 1) {
        0 => returned(run, Signed::Plus(size)),
        1 => returned(run, Signed::Minus(size)),
        _ => malformed(run),
    }
}

fn call(row: Row, run: Run) -> Run {
    match number(row, run, 0) {
        0 => raise(row, run),
        1 => step(row, run),
        2 => inject(row, run),
        3 => go_back(row, run),
        _ => malformed(run),
    }
}

// A run without a call has no number in its reply, and so is no row.
pub fn answer(row: Row) -> Reply {
    let mut run = start(row);
    let count = rows::count(row);
    for _ in 0..24 {
        if run.at >= count {
            break;
        }
        run = call(row, run);
    }
    let reply = run.reply;
    if run.good & (run.at == count) {
        reply
    } else {
        no_row()
    }
}
