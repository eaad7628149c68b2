// `held MODE REGISTER`: status::held_in. 1 and the number, or 0 for nowhere.
use rows::{Reply, Row, one, with, word};

fn shown(answer: Option<u32>) -> Reply {
    match answer {
        Some(number) => with(one(1), number as u64),
        None => one(0),
    }
}

pub fn answer(row: Row) -> Reply {
    if !rows::is_words(row, 2) {
        return rows::no_row();
    }
    shown(status::held_in(word(row, 0), word(row, 1)))
}
