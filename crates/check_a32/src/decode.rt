// `decode WORD`: a32_rule::decode.
use super::fields::with_fields;
use a32_fields::Fields;
use rows::{Reply, Row};

fn shown(answer: Option<Fields>) -> Reply {
    match answer {
        Some(f) => with_fields(rows::one(0), f),
        None => rows::refused(rows::no_row(), 19, 0, 0),
    }
}

pub fn answer(row: Row) -> Reply {
    if !rows::is_words(row, 1) {
        return rows::no_row();
    }
    shown(a32_rule::decode(rows::word(row, 0)))
}
