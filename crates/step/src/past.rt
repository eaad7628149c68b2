// The state past an instruction.
ghost use Rattle.std.specs.Prelude.{◌≡◌};
ghost use Rattle.step.specs.Step.{bytes_of, stepped};

use exception::Guest;
use status::it_advanced;
use std::num::wrapping_add_u32;

// The length of the instruction, which IL tells, whatever T is.
fn bytes_of(il: bool) -> u32
    ensures { result ≡ bytes_of il }
{
    if il { 4 } else { 2 }
}

// The state past the instruction, with these registers.
#[tactic(auto, unfolding(crate::specs::Step::stepped))]
pub fn stepped(state: Guest, regs: [u32; 31], il: bool) -> Guest
    ensures { result ≡ stepped state regs il }
{
    let mut after = state;
    after.regs = regs;
    after.pc = wrapping_add_u32(state.pc, bytes_of(il));
    after.status = it_advanced(state.status);
    after
}
