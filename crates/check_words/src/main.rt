// Answers the second program's questions to the calls on words of both forms and on whole traps. Each line of standard input is a row, the
// word of a call and the numbers that it is asked with, and is answered by a line of numbers, or by `no row` (second/README.md).
#![tactic(auto)]

mod again;
mod both;
mod carry;
mod hagain;
mod hcarry;
mod hread;
mod hwrite;
mod read;
mod shown;
mod trapped;
mod widened;
mod write;

use rows::{Calls, Reply, Row, is};

struct WordCalls;

impl Calls for WordCalls {
    fn reply(&self, row: Row) -> Reply {
        if is(row, b"read") {
            return read::answer(row);
        }
        if is(row, b"write") {
            return write::answer(row);
        }
        if is(row, b"carry") {
            return carry::answer(row);
        }
        if is(row, b"again") {
            return again::answer(row);
        }
        if is(row, b"trap") {
            return trapped::answer(row);
        }
        if is(row, b"both") {
            return both::answer(row);
        }
        short_call(row)
    }
}

// Those on words of the short form.
fn short_call(row: Row) -> Reply {
    if is(row, b"hread") {
        return hread::answer(row);
    }
    if is(row, b"hwrite") {
        return hwrite::answer(row);
    }
    if is(row, b"hcarry") {
        return hcarry::answer(row);
    }
    if is(row, b"hagain") {
        return hagain::answer(row);
    }
    if is(row, b"widen") {
        return widened::answer(row);
    }
    rows::no_row()
}

fn main(rt: HostRuntime) {
    let mut input = rt.stdin();
    let mut output = rt.stdout();
    rows::answer_all(&mut input, &mut output, &WordCalls);
}
