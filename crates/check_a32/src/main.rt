// Answers the second program's questions to the calls on A32 loads and stores. Each line of standard input is a row, the word of a call and
// the numbers that it is asked with, and is answered by a line of numbers, or by `no row` (second/README.md).
#![tactic(auto)]

mod access;
mod decode;
mod encode;
mod fields;

use rows::{Calls, Reply, Row, is};

struct A32Calls;

impl Calls for A32Calls {
    fn reply(&self, row: Row) -> Reply {
        if is(row, b"decode") {
            return decode::answer(row);
        }
        if is(row, b"encode") {
            return encode::answer(row);
        }
        if is(row, b"access") {
            return access::answer(row);
        }
        rows::no_row()
    }
}

fn main(rt: HostRuntime) {
    let mut input = rt.stdin();
    let mut output = rt.stdout();
    rows::answer_all(&mut input, &mut output, &A32Calls);
}
