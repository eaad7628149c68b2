// The loop of every program that answers rows.
use super::input::Rows;
use super::reply::{Reply, write};
use super::row::Row;
use std::io::{Read, Write};

// A program's calls: what it answers to a row.
// Kept: it tests for one word after another, since a table of functions asks of a reader that each of them may be called.
pub trait Calls {
    fn reply(&self, row: Row) -> Reply;
}

// Answers each row of an input with a line, until the input ends or a line can't be written.
//
// A proved loop has to end, and nothing says that the input does: it counts up to a number that no run reaches.
pub fn answer_all<R: Read, W: Write, C: Calls>(input: &mut R, output: &mut W, calls: &C) {
    let mut rows = Rows::new();
    for _ in 0..u64::MAX {
        let Some(row) = rows.next_row(input) else {
            break;
        };
        if !write(output, calls.reply(row)) {
            break;
        }
    }
}
