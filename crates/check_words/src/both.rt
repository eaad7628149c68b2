// `both ORIGIN FIRST SECOND ESR FAR HPFAR`: trap::read_both.
use super::trapped::{refused, with_trap};
use esr_calls::origin_of;
use registers::{Esr, Far, Hpfar};
use rows::{Reply, Row, long, word};
use trap::{Trap, TrapRefusal};

fn shown(answer: Result<(Trap, Trap), TrapRefusal>) -> Reply {
    match answer {
        Ok((first, second)) => with_trap(with_trap(rows::one(0), first), second),
        Err(refusal) => refused(refusal),
    }
}

pub fn answer(row: Row) -> Reply {
    if !((rows::count(row) == 6) & rows::are_words(row, 0, 3)) {
        return rows::no_row();
    }
    let origin = origin_of(word(row, 0));
    let esr = Esr(long(row, 3));
    let far = Far(long(row, 4));
    let hpfar = Hpfar(long(row, 5));
    let first = word(row, 1);
    let second = word(row, 2);
    shown(trap::read_both(origin, first, second, esr, far, hpfar))
}
