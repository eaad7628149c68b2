// `copro FIRST SECOND STATE RECORD`: coprocessor::finish, by way of act::act.
use act::{Acted, Action, Outcome};
use coprocessor::Moved;
use record_of_words::record_of;
use rows::{Reply, Row, one, with, with_changes, word};
use state_words::{state_of, words_of};
use step::OnwardRefusal;

// How many registers a write hands out, and what they hold.
fn with_given(reply: Reply, answer: Result<Moved, OnwardRefusal>) -> Reply {
    match answer {
        Ok(Moved::Written(first)) => with(with(with(reply, 1), first as u64), 0),
        Ok(Moved::WrittenTwo(first, second)) => {
            with(with(with(reply, 2), first as u64), second as u64)
        }
        _ => with(with(with(reply, 0), 0), 0),
    }
}

fn shown(before: [u32; 48], done: Acted) -> Reply {
    let outcome = done.outcome;
    let after = done.state;
    match outcome {
        Outcome::Coprocessor(answer) => {
            let given = with_given(one(coprocessor::number(answer) as u64), answer);
            with_changes(given, before, words_of(before, after))
        }
        _ => rows::no_row(),
    }
}

pub fn answer(row: Row) -> Reply {
    if !rows::is_words(row, 66) {
        return rows::no_row();
    }
    let before = rows::words(row, 2);
    let what = record_of(rows::words(row, 50));
    let action = Action::Coprocessor(what, word(row, 0), word(row, 1));
    shown(before, act::act(state_of(before), action))
}
