// Answers as replies, of both forms alike.
use edition::Refusal;
use rows::Reply;

// A reply with a refusal's number, mask and count after it.
fn refused(reply: Reply, refusal: Refusal) -> Reply {
    rows::refused(
        reply,
        edition::number(refusal),
        edition::mask(refusal),
        edition::count(refusal),
    )
}

// A reply with a record's words after it, or a refusal.
fn with_record(reply: Reply, answer: Result<[u32; 16], Refusal>) -> Reply {
    match answer {
        Ok(words) => rows::with_sixteen(rows::with(reply, 0), words),
        Err(refusal) => refused(reply, refusal),
    }
}

pub fn record(answer: Result<[u32; 16], Refusal>) -> Reply {
    with_record(rows::no_row(), answer)
}

pub fn word(answer: Result<u64, Refusal>) -> Reply {
    match answer {
        Ok(word) => rows::with(rows::one(0), word),
        Err(refusal) => refused(rows::no_row(), refusal),
    }
}

// After 0 for a record that is written comes the reader's answer.
pub fn carried(answer: Result<Result<[u32; 16], Refusal>, Refusal>) -> Reply {
    match answer {
        Ok(read) => with_record(rows::one(0), read),
        Err(refusal) => refused(rows::no_row(), refusal),
    }
}
