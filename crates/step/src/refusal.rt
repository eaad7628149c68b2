// Why a call doesn't go on from a trapped instruction.
ghost use Rattle.std.specs.Prelude.{◌≡◌};
ghost use Rattle.step.specs.Refusal.{onward_number};

// A refusal of `step_over`, of `device::finish` or of `coprocessor::finish`.
#[derive(Clone, Copy, PartialEq, Eq)]
pub enum OnwardRefusal {
    // No edition has the record.
    NoEdition,
    // The status word's mode, or a bit of its 24:21, is wrong.
    UnsoundStatus,
    // The instruction isn't one that this call goes on from. `step_over`: it counts, and stepping over it is not what it does.
    // `device::finish`: the record is no data abort, or its ISV is 0. `coprocessor::finish`: the record is no such read or write, or its
    // condition fails.
    NotThis,
}

pub fn onward_number(refusal: OnwardRefusal) -> u32
    ensures { result ≡ onward_number refusal }
{
    match refusal {
        OnwardRefusal::NoEdition => 5,
        OnwardRefusal::UnsoundStatus => 9,
        OnwardRefusal::NotThis => 18,
    }
}
