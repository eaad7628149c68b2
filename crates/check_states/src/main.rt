// Answers the second program's questions to the calls on a guest's state and its status word. Each line of standard input is a row, the
// word of a call and the numbers that it is asked with, and is answered by a line of numbers, or by `no row` (second/README.md).
#![tactic(auto)]

mod back;
mod finish;
mod held;
mod inject;
mod lent;
mod spsr;

use rows::{Calls, Reply, Row, is};

struct StateCalls;

impl Calls for StateCalls {
    fn reply(&self, row: Row) -> Reply {
        if is(row, b"inject") {
            return inject::answer(row);
        }
        if is(row, b"lent") {
            return lent::answer(row);
        }
        if is(row, b"back") {
            return back::answer(row);
        }
        if is(row, b"spsr") {
            return spsr::answer(row);
        }
        if is(row, b"finish") {
            return finish::answer(row);
        }
        if is(row, b"held") {
            return held::answer(row);
        }
        rows::no_row()
    }
}

fn main(rt: HostRuntime) {
    let mut input = rt.stdin();
    let mut output = rt.stdout();
    rows::answer_all(&mut input, &mut output, &StateCalls);
}
