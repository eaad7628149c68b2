// What reading a log answers: how many counts and entries were gone through, where an address pair is one entry, or why it is refused.
ghost use Rattle.std.specs.Prelude.{◌≡◌};
ghost use Rattle.trap_log.specs.Answer.{number_of, section_in, gone_in};

#[derive(Clone, Copy, PartialEq, Eq)]
pub enum LogRefusal {
    // 16: more than 65,536 bytes.
    TooLong,
    // 13: the count of this section, 1 to 4, is cut short or passes the end.
    CutShort(u32),
    // 14: bytes are left over after the last section.
    LeftOver,
    // 15: the syndrome and address counts differ.
    Unequal,
    // 20: the domain of an injection is above 15.
    WideDomain,
}

// The answer's number in the definition.
pub fn number(answer: Result<usize, LogRefusal>) -> u32
    ensures { result ≡ number_of answer }
{
    match answer {
        Ok(_) => 0,
        Err(LogRefusal::TooLong) => 16,
        Err(LogRefusal::CutShort(_)) => 13,
        Err(LogRefusal::LeftOver) => 14,
        Err(LogRefusal::Unequal) => 15,
        Err(LogRefusal::WideDomain) => 20,
    }
}

// The section that refusal 13 names, and 0 in every other answer.
pub fn section_in(answer: Result<usize, LogRefusal>) -> u32
    ensures { result ≡ section_in answer }
{
    match answer {
        Err(LogRefusal::CutShort(section)) => section,
        _ => 0,
    }
}

// How many counts and entries were gone through, and 0 on a refusal.
pub fn gone_in(answer: Result<usize, LogRefusal>) -> usize
    ensures { result ≡ gone_in answer }
{
    answer.unwrap_or(0)
}
