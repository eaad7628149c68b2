// `access WORD STATE`: a32::describe.
use super::fields::with_fields;
use a32::Described;
use a32_access::Access;
use rows::{Reply, Row, with, with_sixteen};
use signed::Signed;
use state_words::state_of;
use std::num::wrapping_sub_u64;

// A signed change modulo 2^64.
fn change_word(change: Signed) -> u64 {
    match change {
        Signed::Plus(size) => size as u64,
        Signed::Minus(size) => wrapping_sub_u64(0, size as u64),
    }
}

// An access and its registers.
fn with_access(reply: Reply, a: Access, registers: [u32; 16]) -> Reply {
    let fields = a.fields;
    let change = a.change;
    let place = with(
        with(with_fields(reply, fields), a.count as u64),
        a.address as u64,
    );
    with_sixteen(with(place, change_word(change)), registers)
}

fn shown(done: Described) -> Reply {
    let answer = done.answer;
    let registers = done.registers;
    match answer {
        Ok(a) => with_access(rows::one(0), a, registers),
        Err(_) => rows::refused(rows::no_row(), a32::number(answer), 0, 0),
    }
}

pub fn answer(row: Row) -> Reply {
    if !rows::is_words(row, 49) {
        return rows::no_row();
    }
    shown(a32::describe(state_of(rows::words(row, 1)), rows::word(row, 0)))
}
