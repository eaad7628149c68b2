// `cause ORIGIN RECORD`: cause::cause_of, and whether cause::passed_on has a fault.
use cause::{Cause, Kind, Level};
use esr_calls::origin_of;
use record_of_words::record_of;
use rows::{Reply, Row, one, with, word};

fn kind_number(kind: Kind) -> u64 {
    match kind {
        Kind::External => 0,
        Kind::Translation => 1,
        Kind::AccessFlag => 2,
        Kind::Permission => 3,
        Kind::Alignment => 4,
        Kind::AddressSize => 5,
        Kind::Parity => 6,
        Kind::TlbConflict => 7,
        Kind::Update => 8,
        Kind::Lockdown => 9,
        Kind::Exclusive => 10,
    }
}

fn level_number(level: Option<Level>) -> u64 {
    match level {
        None => 4,
        Some(Level::Minus1) => 0xFFFF_FFFF,
        Some(Level::At(n)) => n as u64,
    }
}

fn passes(cause: Cause) -> u64 {
    cause::passed_on(cause).is_some() as u64
}

fn shown(cause: Cause) -> Reply {
    let kind = cause.kind;
    let level = cause.level;
    let first = with(with(one(0), kind_number(kind)), level_number(level));
    with(with(first, cause.walk as u64), passes(cause))
}

pub fn answer(row: Row) -> Reply {
    if !rows::is_words(row, 17) {
        return rows::no_row();
    }
    let answer = cause::cause_of(origin_of(word(row, 0)), record_of(rows::words(row, 1)));
    match answer {
        Ok(cause) => shown(cause),
        Err(_) => rows::refused(rows::no_row(), cause::number(answer), 0, 0),
    }
}
