// `encode FIELDS`: a32_rule::encode.
use super::fields;
use rows::{Reply, Row, one, with};

fn shown(answer: Option<u32>) -> Reply {
    match answer {
        Some(word) => with(one(0), word as u64),
        None => rows::refused(rows::no_row(), 19, 0, 0),
    }
}

pub fn answer(row: Row) -> Reply {
    match fields::from_row(row) {
        Some(f) => shown(a32_rule::encode(f)),
        None => rows::no_row(),
    }
}
