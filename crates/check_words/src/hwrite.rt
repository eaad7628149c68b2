// `hwrite EDITION RECORD`: short::write.
use super::shown;
use rows::{Reply, Row};
use short_words::record_of;

pub fn answer(row: Row) -> Reply {
    if !rows::is_words(row, 17) {
        return rows::no_row();
    }
    let written = short::write(rows::word(row, 0), record_of(rows::words(row, 1)));
    shown::word(written.map(|hsr| hsr.0 as u64))
}
