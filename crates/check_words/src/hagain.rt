// `hagain EDITION WORD`: short::rewrite.
use super::shown;
use registers::Hsr;
use rows::{Reply, Row, word};

pub fn answer(row: Row) -> Reply {
    if !rows::is_words(row, 2) {
        return rows::no_row();
    }
    let written = short::rewrite(word(row, 0), Hsr(word(row, 1)));
    shown::word(written.map(|hsr| hsr.0 as u64))
}
