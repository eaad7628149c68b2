// `read ORIGIN EDITION WORD`: syndrome::read.
use super::shown;
use esr_calls::origin_of;
use record_words::words_of;
use registers::Esr;
use rows::{Reply, Row};

// Whether a row is an origin, an edition and a word.
pub fn is_asked(row: Row) -> bool {
    (rows::count(row) == 3) & rows::are_words(row, 0, 2)
}

pub fn answer(row: Row) -> Reply {
    if !is_asked(row) {
        return rows::no_row();
    }
    let origin = origin_of(rows::word(row, 0));
    let read = syndrome::read(origin, rows::word(row, 1), Esr(rows::long(row, 2)));
    shown::record(read.map(|r| words_of(r)))
}
