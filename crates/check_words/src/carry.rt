// `carry ORIGIN WRITER READER RECORD`: syndrome::carry.
use super::shown;
use esr_calls::origin_of;
use record_of_words::record_of;
use record_words::words_of;
use rows::{Reply, Row, is_words, word};

pub fn answer(row: Row) -> Reply {
    if !is_words(row, 19) {
        return rows::no_row();
    }
    let origin = origin_of(word(row, 0));
    let record = record_of(rows::words(row, 3));
    let carried = syndrome::carry(origin, word(row, 1), word(row, 2), record);
    shown::carried(carried.map(|read| read.map(|r| words_of(r))))
}
