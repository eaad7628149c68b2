// The fields of an A32 load or store in a row: how the address is given, the transfer, and then the fields in the order of their struct.
use a32_fields::{Fields, Immediate, Literal, Multiple, Register, Transfer};
use rows::{Reply, Row, is_words, with, word};

fn transfer(number: u32) -> Transfer {
    match number {
        0 => Transfer::Ldr,
        1 => Transfer::Str,
        2 => Transfer::Ldrb,
        3 => Transfer::Strb,
        4 => Transfer::Ldrh,
        5 => Transfer::Strh,
        6 => Transfer::Ldrsb,
        7 => Transfer::Ldrsh,
        8 => Transfer::Ldrd,
        _ => Transfer::Strd,
    }
}

fn number(transfer: Transfer) -> u32 {
    match transfer {
        Transfer::Ldr => 0,
        Transfer::Str => 1,
        Transfer::Ldrb => 2,
        Transfer::Strb => 3,
        Transfer::Ldrh => 4,
        Transfer::Strh => 5,
        Transfer::Ldrsb => 6,
        Transfer::Ldrsh => 7,
        Transfer::Ldrd => 8,
        Transfer::Strd => 9,
    }
}

fn is_transfer(row: Row) -> bool {
    word(row, 1) < 10
}

// A flag above 1 is none.
fn is_flag(row: Row, at: usize) -> bool {
    word(row, at) < 2
}

fn flag(row: Row, at: usize) -> bool {
    word(row, at) == 1
}

// P, U and W.
fn are_flags(row: Row) -> bool {
    is_flag(row, 3) & is_flag(row, 4) & is_flag(row, 5)
}

fn immediate(row: Row) -> Option<Fields> {
    if !(is_words(row, 9) & is_transfer(row) & are_flags(row)) {
        return None;
    }
    Some(Fields::Immediate(Immediate {
        transfer: transfer(word(row, 1)),
        cond: word(row, 2),
        p: flag(row, 3),
        u: flag(row, 4),
        w: flag(row, 5),
        rn: word(row, 6),
        rt: word(row, 7),
        imm: word(row, 8),
    }))
}

fn register(row: Row) -> Option<Fields> {
    if !(is_words(row, 9) & is_transfer(row) & are_flags(row)) {
        return None;
    }
    Some(Fields::Register(Register {
        transfer: transfer(word(row, 1)),
        cond: word(row, 2),
        p: flag(row, 3),
        u: flag(row, 4),
        w: flag(row, 5),
        rn: word(row, 6),
        rt: word(row, 7),
        rm: word(row, 8),
    }))
}

fn literal(row: Row) -> Option<Fields> {
    if !(is_words(row, 6) & is_transfer(row) & is_flag(row, 3)) {
        return None;
    }
    Some(Fields::Literal(Literal {
        transfer: transfer(word(row, 1)),
        cond: word(row, 2),
        u: flag(row, 3),
        rt: word(row, 4),
        imm: word(row, 5),
    }))
}

fn multiple(row: Row) -> Option<Fields> {
    if !(is_words(row, 8) & is_flag(row, 1) & are_flags(row)) {
        return None;
    }
    Some(Fields::Multiple(Multiple {
        load: flag(row, 1),
        cond: word(row, 2),
        p: flag(row, 3),
        u: flag(row, 4),
        w: flag(row, 5),
        rn: word(row, 6),
        list: word(row, 7),
    }))
}

// A row's fields, or that it has none.
pub fn from_row(row: Row) -> Option<Fields> {
    match rows::long(row, 0) {
        0 => immediate(row),
        1 => register(row),
        2 => literal(row),
        3 => multiple(row),
        _ => None,
    }
}

// A reply with three numbers more.
fn with_three(reply: Reply, first: u32, second: u32, third: u32) -> Reply {
    with(with(with(reply, first as u64), second as u64), third as u64)
}

fn with_immediate(reply: Reply, r: Immediate) -> Reply {
    let transfer = r.transfer;
    let head = with_three(reply, 0, number(transfer), r.cond);
    let flags = with_three(head, r.p as u32, r.u as u32, r.w as u32);
    with_three(flags, r.rn, r.rt, r.imm)
}

fn with_register(reply: Reply, r: Register) -> Reply {
    let transfer = r.transfer;
    let head = with_three(reply, 1, number(transfer), r.cond);
    let flags = with_three(head, r.p as u32, r.u as u32, r.w as u32);
    with_three(flags, r.rn, r.rt, r.rm)
}

fn with_literal(reply: Reply, r: Literal) -> Reply {
    let transfer = r.transfer;
    let head = with_three(reply, 2, number(transfer), r.cond);
    with_three(head, r.u as u32, r.rt, r.imm)
}

fn with_multiple(reply: Reply, r: Multiple) -> Reply {
    let head = with_three(reply, 3, r.load as u32, r.cond);
    let flags = with_three(head, r.p as u32, r.u as u32, r.w as u32);
    with(with(flags, r.rn as u64), r.list as u64)
}

// A reply with some fields after it.
pub fn with_fields(reply: Reply, f: Fields) -> Reply {
    match f {
        Fields::Immediate(r) => with_immediate(reply, r),
        Fields::Register(r) => with_register(reply, r),
        Fields::Literal(r) => with_literal(reply, r),
        Fields::Multiple(r) => with_multiple(reply, r),
    }
}
