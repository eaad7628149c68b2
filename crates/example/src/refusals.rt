// Why nothing was done: a refusal of the call that the trap led to.
ghost use Rattle.std.specs.Prelude.{◌≡◌};
ghost use Rattle.example.specs.Refusal.{refusal_number};
ghost use Rattle.example.specs.declared.refusals.Refusal.{Refusal};

use guest::InjectionRefusal;
use step::OnwardRefusal;
use trap::TrapRefusal;

#[derive(Clone, Copy, PartialEq, Eq)]
pub enum Refusal {
    // The trap is not read.
    Trap(TrapRefusal),
    // The guest doesn't get the exception.
    Injection(InjectionRefusal),
    // The instruction is neither finished nor stepped over.
    Onward(OnwardRefusal),
}

impl From<TrapRefusal> for Refusal {
    ghost from_gives = { λ refusal made. made ≡ Refusal.Trap refusal };

    fn from(refusal: TrapRefusal) -> Refusal {
        Refusal::Trap(refusal)
    }
}

impl From<InjectionRefusal> for Refusal {
    ghost from_gives = { λ refusal made. made ≡ Refusal.Injection refusal };

    fn from(refusal: InjectionRefusal) -> Refusal {
        Refusal::Injection(refusal)
    }
}

impl From<OnwardRefusal> for Refusal {
    ghost from_gives = { λ refusal made. made ≡ Refusal.Onward refusal };

    fn from(refusal: OnwardRefusal) -> Refusal {
        Refusal::Onward(refusal)
    }
}

// The number that the call gives its refusal.
pub fn number(refusal: Refusal) -> u32
    ensures { result ≡ refusal_number refusal }
{
    match refusal {
        Refusal::Trap(refusal) => trap::number(refusal),
        Refusal::Injection(refusal) => guest::number(Err(refusal)),
        Refusal::Onward(refusal) => step::onward_number(refusal),
    }
}
