// Answers the second program's questions to the calls that go on after a trap. Each line of standard input is a row, the word of a call and
// the numbers that it is asked with, and is answered by a line of numbers, or by `no row` (second/README.md).
#![tactic(auto)]

mod conditions;
mod copro;
mod perform;
mod steps;

use rows::{Calls, Reply, Row, is};

struct OnwardCalls;

impl Calls for OnwardCalls {
    fn reply(&self, row: Row) -> Reply {
        if is(row, b"passes") {
            return conditions::answer(row);
        }
        if is(row, b"step") {
            return steps::answer(row);
        }
        if is(row, b"copro") {
            return copro::answer(row);
        }
        if is(row, b"perform") {
            return perform::answer(row);
        }
        rows::no_row()
    }
}

fn main(rt: HostRuntime) {
    let mut input = rt.stdin();
    let mut output = rt.stdout();
    rows::answer_all(&mut input, &mut output, &OnwardCalls);
}
