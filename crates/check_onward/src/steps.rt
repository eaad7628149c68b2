// `step STATE RECORD`: step::step_over, by way of act::act.
use act::{Acted, Action, Outcome};
use record_of_words::record_of;
use rows::{Reply, Row, one, with_changes};
use state_words::{state_of, words_of};

fn shown(before: [u32; 48], done: Acted) -> Reply {
    let outcome = done.outcome;
    let after = done.state;
    match outcome {
        Outcome::SteppedOver(answer) => {
            let number = one(step::number(answer) as u64);
            with_changes(number, before, words_of(before, after))
        }
        _ => rows::no_row(),
    }
}

pub fn answer(row: Row) -> Reply {
    if !rows::is_words(row, 64) {
        return rows::no_row();
    }
    let before = rows::words(row, 0);
    let what = record_of(rows::words(row, 48));
    shown(before, act::act(state_of(before), Action::StepOver(what)))
}
