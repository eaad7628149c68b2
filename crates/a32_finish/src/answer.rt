// What finishing a described load or store answers.
ghost use Rattle.std.specs.Prelude.{◌≡◌};
ghost use Rattle.a32_finish.specs.Answer.{finish_number};

use a32::InstructionRefusal;
use a32_access::Access;
use exception::Guest;

#[derive(Clone, Copy)]
pub enum Moved {
    // A load: its registers have the device's values.
    Loaded(Access),
    // A store: the device gets the values beside this.
    Stored(Access),
}

// The answer, with the address of each transfer and what a store gives the device there, in transfer order: as many as the access counts,
// and 0 after them. A load gives nothing.
#[derive(Clone, Copy)]
pub struct Outcome {
    pub answer: Result<Moved, InstructionRefusal>,
    // Kept: C takes all sixteen words of each (knucklepin_a32_finish), and the definitions say that 0 stands after the last.
    pub addresses: [u32; 16],
    pub values: [u32; 16],
}

#[derive(Clone, Copy)]
pub struct Finished {
    pub outcome: Outcome,
    pub state: Guest,
}

pub fn number(answer: Result<Moved, InstructionRefusal>) -> u32
    ensures { result ≡ finish_number answer }
{
    a32::number(answer)
}
