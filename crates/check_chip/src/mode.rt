// `ran SPSR HCR`: chip::ran_of, and chip::origin_of of its answer.
use chip::{Hcr, Ran, Spsr};
use record::Origin;
use rows::{Reply, Row, long, one, with};

fn number(ran: Ran) -> u64 {
    match ran {
        Ran::Guest => 0,
        Ran::AArch64 => 1,
        Ran::Program => 2,
    }
}

fn origin(ran: Ran) -> u64 {
    match chip::origin_of(ran) {
        Origin::AArch32 => 0,
        Origin::AArch64 => 1,
    }
}

pub fn answer(row: Row) -> Reply {
    if rows::count(row) != 2 {
        return rows::no_row();
    }
    let ran = chip::ran_of(Spsr(long(row, 0)), Hcr(long(row, 1)));
    with(one(number(ran)), origin(ran))
}
