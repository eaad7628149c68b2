// Answers the second program's questions on logs (second/src/log/questions.rs).
//
// A question is a letter and what it asks about: a log to be read, `r`, also by the reader that holds it; a log and a place in it, `l`; a
// log to be written again into a buffer, `a`; lists to be written into a buffer, `w`. A buffer is shown whole, whatever the answer. A question
// with a list that has no room is answered by `no row`.
#![tactic(auto)]

mod input;
mod lines;

use std::io::{Read, Write};

// Room for more bytes, more injections and more words of a kind than a log may have.
const BYTES: usize = 70000;

const HALVES: usize = 33000;

const WORDS: usize = 8200;

// What a buffer holds where the question doesn't say it.
const UNWRITTEN: u8 = 165;

fn read_question<R: Read, W: Write>(from: &mut R, to: &mut W) {
    let mut space = [0u8; BYTES];
    let n = input::bytes(from, &mut space);
    if n > BYTES {
        lines::no_row(to);
        return;
    }
    let log = input::first(&space, n);
    lines::read(to, b"read ", trap_log::read(log));
    lines::read(to, b"held ", log_reader::read_in(log));
}

fn look_question<R: Read, W: Write>(from: &mut R, to: &mut W) {
    let mut space = [0u8; BYTES];
    let n = input::bytes(from, &mut space);
    let passed = input::number(from);
    let entry = input::number(from);
    if n > BYTES {
        lines::no_row(to);
        return;
    }
    let log = input::first(&space, n);
    lines::look(to, log_reader::look_in(log, passed, entry as usize));
}

fn again_question<R: Read, W: Write>(from: &mut R, to: &mut W) {
    let mut space = [0u8; BYTES];
    let mut buffer = [UNWRITTEN; BYTES];
    let n = input::bytes(from, &mut space);
    let room = input::bytes(from, &mut buffer);
    if (n > BYTES) | (room > BYTES) {
        lines::no_row(to);
        return;
    }
    let log = input::first(&space, n);
    let out = input::front(&mut buffer, room);
    let answer = log_rewrite::rewrite(log, out);
    lines::again(to, answer, out);
}

fn write_question<R: Read, W: Write>(from: &mut R, to: &mut W) {
    let mut editions = [0u8; BYTES];
    let mut syndromes = [0u64; WORDS];
    let mut fars = [0u64; WORDS];
    let mut hpfars = [0u64; WORDS];
    let mut injections = [0u16; HALVES];
    let mut buffer = [UNWRITTEN; BYTES];
    let e = input::bytes(from, &mut editions);
    let s = input::numbers(from, &mut syndromes);
    let f = input::numbers(from, &mut fars);
    let h = input::numbers(from, &mut hpfars);
    let i = input::numbers(from, &mut injections);
    let room = input::bytes(from, &mut buffer);
    if (e > BYTES) | (s > WORDS) | (f > WORDS) | (h > WORDS) | (i > HALVES) | (room > BYTES) {
        lines::no_row(to);
        return;
    }
    let out = input::front(&mut buffer, room);
    let answer = log_rewrite::write_raw(
        input::first(&editions, e),
        input::first(&syndromes, s),
        input::first(&fars, f),
        input::first(&hpfars, h),
        input::first(&injections, i),
        out,
    );
    lines::written(to, answer, out);
}

// Answers a question, and tells whether there was one.
fn next_question<R: Read, W: Write>(from: &mut R, to: &mut W) -> bool {
    match input::letter(from) {
        b'r' => read_question(from, to),
        b'l' => look_question(from, to),
        b'a' => again_question(from, to),
        b'w' => write_question(from, to),
        _ => return false,
    }
    true
}

// A proved loop has to end, and nothing says that the input does: it counts up to a number that no run reaches.
fn main(rt: HostRuntime) {
    let mut from = rt.stdin();
    let mut to = rt.stdout();
    for _ in 0..u64::MAX {
        if !next_question(&mut from, &mut to) {
            break;
        }
    }
}
