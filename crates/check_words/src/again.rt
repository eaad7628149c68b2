// `again ORIGIN EDITION WORD`: syndrome::rewrite.
use super::read::is_asked;
use super::shown;
use esr_calls::origin_of;
use registers::Esr;
use rows::{Reply, Row};

pub fn answer(row: Row) -> Reply {
    if !is_asked(row) {
        return rows::no_row();
    }
    let origin = origin_of(rows::word(row, 0));
    let written = syndrome::rewrite(origin, rows::word(row, 1), Esr(rows::long(row, 2)));
    shown::word(written.map(|esr| esr.0))
}
