// Rows: lines of a word and numbers read from a reader, and lines of numbers written in reply. second/README.md describes them.
//
// Rows and replies are values: what a call is asked and what it answers stands in functions that borrow nothing, which are proved at
// little cost. Input and output are borrowed here alone.
#![tactic(auto)]

mod answer;
mod input;
mod reply;
mod row;

pub use answer::{Calls, answer_all};
pub use input::Rows;
pub use reply::{Reply, no_row, one, refused, with, with_changes, with_sixteen, write};
pub use row::{Row, are_words, count, is, is_words, long, word, words};
