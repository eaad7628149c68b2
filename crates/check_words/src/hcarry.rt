// `hcarry WRITER READER RECORD`: short::carry.
use super::shown;
use rows::{Reply, Row, word};
use short_words::{record_of, words_of};

pub fn answer(row: Row) -> Reply {
    if !rows::is_words(row, 18) {
        return rows::no_row();
    }
    let record = record_of(rows::words(row, 2));
    let carried = short::carry(word(row, 0), word(row, 1), record);
    shown::carried(carried.map(|read| read.map(|r| words_of(r))))
}
