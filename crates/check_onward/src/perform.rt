// `perform WORD VALUES STATE`: a32_finish::finish.
use a32::InstructionRefusal;
use a32_access::Access;
use a32_finish::{Finished, Moved};
use rows::{Reply, Row, one, with, with_sixteen, word};
use state_words::{state_of, words_of};

// Whether it was a store, and how many registers it transferred.
fn with_access(reply: Reply, stored: u64, access: Access) -> Reply {
    with(with(reply, stored), access.count as u64)
}

fn with_answer(reply: Reply, answer: Result<Moved, InstructionRefusal>) -> Reply {
    match answer {
        Ok(Moved::Loaded(access)) => with_access(reply, 0, access),
        Ok(Moved::Stored(access)) => with_access(reply, 1, access),
        _ => with(with(reply, 0), 0),
    }
}

fn shown(before: [u32; 48], done: Finished) -> Reply {
    let outcome = done.outcome;
    let answer = outcome.answer;
    let addresses = outcome.addresses;
    let values = outcome.values;
    let after = done.state;
    let access = with_answer(one(a32_finish::number(answer) as u64), answer);
    let given = with_sixteen(with_sixteen(access, addresses), values);
    rows::with_changes(given, before, words_of(before, after))
}

pub fn answer(row: Row) -> Reply {
    if !rows::is_words(row, 65) {
        return rows::no_row();
    }
    let before = rows::words(row, 17);
    shown(
        before,
        a32_finish::finish(state_of(before), word(row, 0), rows::words(row, 1)),
    )
}
