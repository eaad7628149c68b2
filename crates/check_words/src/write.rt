// `write ORIGIN EDITION RECORD`: syndrome::write.
use super::shown;
use esr_calls::origin_of;
use record_of_words::record_of;
use rows::{Reply, Row, is_words, word};

pub fn answer(row: Row) -> Reply {
    if !is_words(row, 18) {
        return rows::no_row();
    }
    let origin = origin_of(word(row, 0));
    let written = syndrome::write(origin, word(row, 1), record_of(rows::words(row, 2)));
    shown::word(written.map(|esr| esr.0))
}
