// `back KIND FAULT LEVEL ADDRESS WRITE DOMAIN STATE`: nest::inject_and_resume.
use super::inject::{injection, is_asked};
use nest::inject_and_resume;
use rows::{Reply, Row};
use state_words::{state_of, words_of};

pub fn answer(row: Row) -> Reply {
    if !is_asked(row) {
        return rows::no_row();
    }
    let before = rows::words(row, 6);
    let back = inject_and_resume(state_of(before), injection(row));
    let answer = back.answer;
    let after = back.state;
    rows::with_changes(
        rows::one(nest::number(answer) as u64),
        before,
        words_of(before, after),
    )
}
