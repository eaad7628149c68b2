// `inject KIND FAULT LEVEL ADDRESS WRITE DOMAIN STATE`: guest::inject.
use guest::{Injected, Injection};
use guest_calls::injection_of;
use rows::{Reply, Row, are_words, long, word};
use state_words::{state_of, words_of};

pub fn shown(before: [u32; 48], done: Injected) -> Reply {
    let answer = done.answer;
    let after = done.state;
    rows::with_changes(
        rows::one(guest::number(answer) as u64),
        before,
        words_of(before, after),
    )
}

// Whether a row is an injection, whose address has 64 bits, and a state.
pub fn is_asked(row: Row) -> bool {
    (rows::count(row) == 54) & are_words(row, 0, 3) & are_words(row, 4, 54)
}

pub fn injection(row: Row) -> Injection {
    injection_of(
        word(row, 0),
        word(row, 1),
        word(row, 2),
        long(row, 3),
        word(row, 4),
        word(row, 5),
    )
}

pub fn answer(row: Row) -> Reply {
    if !is_asked(row) {
        return rows::no_row();
    }
    let before = rows::words(row, 6);
    shown(before, guest::inject(state_of(before), injection(row)))
}
