// What writing a log answers: the log's length, or why it is refused.
ghost use Rattle.std.specs.Prelude.{◌≡◌};
ghost use Rattle.log_writer.specs.Write.{number_of, length_in};

#[derive(Clone, Copy, PartialEq, Eq)]
pub enum WriteRefusal {
    // 15: the counts of syndromes, FAR words and HPFAR words are not all the same.
    Unequal,
    // 16: more than 65,536 bytes.
    TooLong,
    // 17: the buffer has no room.
    NoRoom,
    // 20: the domain of an injection is above 15.
    WideDomain,
}

// The answer's number in the definition.
pub fn number(answer: Result<usize, WriteRefusal>) -> u32
    ensures { result ≡ number_of answer }
{
    match answer {
        Ok(_) => 0,
        Err(WriteRefusal::Unequal) => 15,
        Err(WriteRefusal::TooLong) => 16,
        Err(WriteRefusal::NoRoom) => 17,
        Err(WriteRefusal::WideDomain) => 20,
    }
}

// The length of the log that was written, and 0 on a refusal.
pub fn length_in(answer: Result<usize, WriteRefusal>) -> usize
    ensures { result ≡ length_in answer }
{
    answer.unwrap_or(0)
}
