// Answers the second program's questions to the calls on the chip's registers, to the one that makes a saved word of a status word, and to
// the one that tells why an abort came. Each line of standard input is a row, the word of a call and the numbers that it is asked with, and
// is answered by a line of numbers, or by `no row` (second/README.md).
#![tactic(auto)]

mod abort;
mod id;
mod mode;
mod saved;

use rows::{Calls, Reply, Row, is};

struct ChipCalls;

impl Calls for ChipCalls {
    fn reply(&self, row: Row) -> Reply {
        if is(row, b"tospsr") {
            return saved::answer(row);
        }
        if is(row, b"edition") {
            return id::edition(row);
        }
        if is(row, b"short") {
            return id::short_edition(row);
        }
        if is(row, b"marks") {
            return id::marks(row);
        }
        if is(row, b"ran") {
            return mode::answer(row);
        }
        if is(row, b"cause") {
            return abort::answer(row);
        }
        rows::no_row()
    }
}

fn main(rt: HostRuntime) {
    let mut input = rt.stdin();
    let mut output = rt.stdout();
    rows::answer_all(&mut input, &mut output, &ChipCalls);
}
