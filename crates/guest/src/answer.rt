// What an injection answers.
ghost use Rattle.std.specs.Prelude.{◌≡◌};
ghost use Rattle.guest.specs.Answer.{answer_number};

// Why an injection is refused.
#[derive(Clone, Copy, PartialEq, Eq)]
pub enum InjectionRefusal {
    // The status word's mode, or a bit of its 24:21, is wrong.
    UnsoundStatus,
    // VBAR bits 4:0 are not zero.
    UnalignedVbar,
    // The fault can't be written in this format or register, or its level isn't 1 to 3.
    UnwritableFault,
    // The fault's address has bits 63:32 set.
    WideAddress,
    // The domain is above 15.
    WideDomain,
}

pub fn number(answer: Result<(), InjectionRefusal>) -> u32
    ensures { result ≡ answer_number answer }
{
    match answer {
        Ok(()) => 0,
        Err(InjectionRefusal::UnsoundStatus) => 9,
        Err(InjectionRefusal::UnalignedVbar) => 10,
        Err(InjectionRefusal::UnwritableFault) => 11,
        Err(InjectionRefusal::WideAddress) => 12,
        Err(InjectionRefusal::WideDomain) => 20,
    }
}
