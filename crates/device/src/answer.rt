// What finishing an access answers.
ghost use Rattle.std.specs.Prelude.{◌≡◌};
ghost use Rattle.device.specs.Answer.{access_number};

use step::{OnwardRefusal, onward_number};

#[derive(Clone, Copy, PartialEq, Eq)]
pub enum Moved {
    // A load: its register has the device's value.
    Loaded,
    // A store: what the device gets.
    Stored(u32),
}

// Kept: a twin of step::number, since the must-fail edit wrong_number turns this crate's own.
pub fn number(answer: Result<Moved, OnwardRefusal>) -> u32
    ensures { result ≡ access_number answer }
{
    match answer {
        Ok(_) => 0,
        Err(refusal) => onward_number(refusal),
    }
}
