// `finish VALUE STATE RECORD`: device::finish, by way of act::act.
use act::{Acted, Action, Outcome};
use device::Moved;
use record_of_words::record_of;
use rows::{Reply, Row, one, with, with_changes, word};
use state_words::{state_of, words_of};
use step::OnwardRefusal;

// Whether the access is a store, and what the device gets.
fn with_access(reply: Reply, answer: Result<Moved, OnwardRefusal>) -> Reply {
    match answer {
        Ok(Moved::Stored(given)) => with(with(reply, 1), given as u64),
        _ => with(with(reply, 0), 0),
    }
}

fn shown(before: [u32; 48], done: Acted) -> Reply {
    let outcome = done.outcome;
    let after = done.state;
    match outcome {
        Outcome::Finished(answer) => {
            let access = with_access(one(device::number(answer) as u64), answer);
            with_changes(access, before, words_of(before, after))
        }
        _ => rows::no_row(),
    }
}

pub fn answer(row: Row) -> Reply {
    if !rows::is_words(row, 65) {
        return rows::no_row();
    }
    let before = rows::words(row, 1);
    let what = record_of(rows::words(row, 49));
    shown(
        before,
        act::act(state_of(before), Action::Finish(what, word(row, 0))),
    )
}
