// What finishing a coprocessor read or write answers.
ghost use Rattle.std.specs.Prelude.{◌≡◌};
ghost use Rattle.coprocessor.specs.Answer.{transfer_number};

use step::{OnwardRefusal, onward_number};

#[derive(Clone, Copy, PartialEq, Eq)]
pub enum Moved {
    // A read: its register has the value, or its two have theirs.
    Read,
    // A write: what Rt holds.
    Written(u32),
    // A write of two registers: what Rt and Rt2 hold.
    WrittenTwo(u32, u32),
}

// Kept: a twin of step::number, since the must-fail edit wrong_number turns this crate's own.
pub fn number(answer: Result<Moved, OnwardRefusal>) -> u32
    ensures { result ≡ transfer_number answer }
{
    match answer {
        Ok(_) => 0,
        Err(refusal) => onward_number(refusal),
    }
}
