// `trap ORIGIN EDITION ESR FAR HPFAR`: trap::read.
use address::IntermediateAddress;
use esr_calls::origin_of;
use record::Record;
use record_words::words_of;
use registers::{Esr, Far, Hpfar};
use rows::{Reply, Row, long, with};
use trap::{Abort, Addressed, Trap, TrapRefusal};

fn with_record(reply: Reply, r: Record) -> Reply {
    rows::with_sixteen(reply, words_of(r))
}

fn with_virtual(reply: Reply, address: Option<u64>) -> Reply {
    match address {
        Some(known) => with(with(reply, 1), known),
        None => with(reply, 0),
    }
}

fn with_intermediate(reply: Reply, address: Option<IntermediateAddress>) -> Reply {
    match address {
        None => with(reply, 0),
        Some(IntermediateAddress::Page(page)) => with(with(reply, 1), page),
        Some(IntermediateAddress::Byte(byte)) => with(with(reply, 2), byte),
    }
}

fn with_abort(reply: Reply, a: Abort) -> Reply {
    let syndrome = a.syndrome;
    let address = a.address;
    let intermediate = a.intermediate;
    let known = with_virtual(with_record(reply, syndrome), address);
    with_intermediate(known, intermediate)
}

fn with_addressed(reply: Reply, a: Addressed) -> Reply {
    let syndrome = a.syndrome;
    with(with(with(with_record(reply, syndrome), 1), a.address), 0)
}

// A reply with a trap after it: its record, its virtual address and its intermediate address.
pub fn with_trap(reply: Reply, t: Trap) -> Reply {
    match t {
        Trap::Abort(a) => with_abort(reply, a),
        Trap::Addressed(a) => with_addressed(reply, a),
        Trap::Plain(r) => with(with(with_record(reply, r), 0), 0),
    }
}

pub fn refused(refusal: TrapRefusal) -> Reply {
    rows::refused(
        rows::no_row(),
        trap::number(refusal),
        trap::mask(refusal),
        trap::count(refusal),
    )
}

fn shown(answer: Result<Trap, TrapRefusal>) -> Reply {
    match answer {
        Ok(t) => with_trap(rows::one(0), t),
        Err(refusal) => refused(refusal),
    }
}

pub fn answer(row: Row) -> Reply {
    if !((rows::count(row) == 5) & rows::are_words(row, 0, 2)) {
        return rows::no_row();
    }
    let origin = origin_of(rows::word(row, 0));
    let esr = Esr(long(row, 2));
    let far = Far(long(row, 3));
    let hpfar = Hpfar(long(row, 4));
    shown(trap::read(origin, rows::word(row, 1), esr, far, hpfar))
}
