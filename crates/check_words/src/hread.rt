// `hread EDITION WORD`: short::read.
use super::shown;
use registers::Hsr;
use rows::{Reply, Row, word};
use short_words::words_of;

pub fn answer(row: Row) -> Reply {
    if !rows::is_words(row, 2) {
        return rows::no_row();
    }
    shown::record(short::read(word(row, 0), Hsr(word(row, 1))).map(|r| words_of(r)))
}
