// `edition PFR0 MMFR0 MMFR1`, `short PFR0` and `marks MMFR3 PFR2 PFR0`: chip::edition_of, chip::short_edition_of and chip::marks_of.
use chip::{IdAa64mmfr0, IdAa64mmfr1, IdAa64pfr0, IdMmfr3, IdPfr0, IdPfr2};
use rows::{Reply, Row, long, one, with};
use status::Marks;

pub fn edition(row: Row) -> Reply {
    if rows::count(row) != 3 {
        return rows::no_row();
    }
    let edition = chip::edition_of(
        IdAa64pfr0(long(row, 0)),
        IdAa64mmfr0(long(row, 1)),
        IdAa64mmfr1(long(row, 2)),
    );
    one(edition as u64)
}

pub fn short_edition(row: Row) -> Reply {
    if rows::count(row) != 1 {
        return rows::no_row();
    }
    one(chip::short_edition_of(IdPfr0(long(row, 0))) as u64)
}

fn shown(marks: Marks) -> Reply {
    with(
        with(one(marks.pan as u64), marks.ssbs as u64),
        marks.dit as u64,
    )
}

pub fn marks(row: Row) -> Reply {
    if rows::count(row) != 3 {
        return rows::no_row();
    }
    shown(chip::marks_of(
        IdMmfr3(long(row, 0)),
        IdPfr2(long(row, 1)),
        IdPfr0(long(row, 2)),
    ))
}
