// `lent KIND FAULT LEVEL ADDRESS WRITE DOMAIN STATE`: monitor::inject_in_place.
ghost use Rattle.std.specs.Prelude.{◌≡◌};
ghost use Rattle.guest.specs.Inject.{injected};

use super::inject::{injection, is_asked, shown};
use exception::Guest;
use guest::{Injected, Injection};
use monitor::inject_in_place;
use rows::{Reply, Row};
use state_words::state_of;

// The state is lent, and then what it has become is read.
fn inject_lent(before: Guest, what: Injection) -> Injected
    ensures { result ≡ injected before what }
{
    let mut state = before;
    let answer = inject_in_place(&mut state, what);
    Injected { answer, state }
}

pub fn answer(row: Row) -> Reply {
    if !is_asked(row) {
        return rows::no_row();
    }
    let before = rows::words(row, 6);
    shown(before, inject_lent(state_of(before), injection(row)))
}
