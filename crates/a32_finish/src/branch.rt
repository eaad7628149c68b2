// A load of register 15: the manual's LoadWritePC, which is BXWritePC.
ghost use Rattle.std.specs.Prelude.{◌≡◌};
ghost use Rattle.a32_finish.specs.Branch.{with_t, target_of, branched};

use bits::bit;
use exception::Guest;

// A status word with T.
fn with_t(status: u32, t: bool) -> u32
    ensures { result ≡ with_t status t }
{
    let high = status & 0xFFFF_FFC0;
    let low = status & 0x1F;
    if t { high | 0x20 | low } else { high | low }
}

// The address without the bits that a PC in the new state hasn't: bit 0 in T32 state, bits 1:0 in A32 state.
#[tactic(auto, unfolding(crate::specs::Branch::target_of))]
fn target_of(value: u32) -> u32
    ensures { result ≡ target_of value }
{
    if bit(value as u64, 0) {
        value & 0xFFFF_FFFE
    } else {
        value & 0xFFFF_FFFC
    }
}

// Bit 0 chooses T32 state.
#[tactic(auto, unfolding(crate::specs::Branch::branched))]
pub(crate) fn branched(state: Guest, value: u32) -> Guest
    ensures { result ≡ branched state value }
{
    let mut after = state;
    after.pc = target_of(value);
    after.status = with_t(state.status, bit(value as u64, 0));
    after
}
