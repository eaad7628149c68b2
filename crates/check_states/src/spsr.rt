// `spsr PAN SSBS DIT WORD`: status::from_spsr.
use rows::{Reply, Row, word};
use state_words::is_mark;
use status::Marks;

fn shown(answer: Option<u32>) -> Reply {
    match answer {
        Some(word) => rows::with(rows::one(0), word as u64),
        None => rows::refused(rows::no_row(), 9, 0, 0),
    }
}

pub fn answer(row: Row) -> Reply {
    if !rows::is_words(row, 4) {
        return rows::no_row();
    }
    let marks = Marks {
        pan: is_mark(word(row, 0)),
        ssbs: is_mark(word(row, 1)),
        dit: is_mark(word(row, 2)),
    };
    shown(status::from_spsr(marks, word(row, 3)))
}
