// Answers the second program's questions to the queue of waiting interrupts and to the return. Each line of standard input is a row, a word
// and the numbers of a whole run, and is answered by a line of numbers, every call's, or by `no row` (second/README.md).
#![tactic(auto)]

mod run;

use rows::{Calls, Reply, Row, is};

struct RunCalls;

impl Calls for RunCalls {
    fn reply(&self, row: Row) -> Reply {
        if is(row, b"run") {
            return run::answer(row);
        }
        rows::no_row()
    }
}

fn main(rt: HostRuntime) {
    let mut input = rt.stdin();
    let mut output = rt.stdout();
    rows::answer_all(&mut input, &mut output, &RunCalls);
}
