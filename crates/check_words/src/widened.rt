// `widen MODE RECORD`: widen::widen.
use record_words::words_of;
use rows::{Reply, Row, no_row, refused};
use short_words::record_of;
use widen::WidenRefusal;

fn refusal_number(refusal: WidenRefusal) -> u32 {
    match refusal {
        WidenRefusal::BadMode => 9,
        WidenRefusal::NoEdition => 5,
    }
}

pub fn answer(row: Row) -> Reply {
    if !rows::is_words(row, 17) {
        return no_row();
    }
    match widen::widen(rows::word(row, 0), record_of(rows::words(row, 1))) {
        Ok(r) => rows::with_sixteen(rows::one(0), words_of(r)),
        Err(refusal) => refused(no_row(), refusal_number(refusal), 0, 0),
    }
}
