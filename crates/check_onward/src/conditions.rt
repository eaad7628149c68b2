// `passes STATUS RECORD`: step::passes.
use record_of_words::record_of;
use rows::{Reply, Row};

pub fn answer(row: Row) -> Reply {
    if !rows::is_words(row, 17) {
        return rows::no_row();
    }
    let what = record_of(rows::words(row, 1));
    rows::one(step::passes(rows::word(row, 0), what) as u64)
}
