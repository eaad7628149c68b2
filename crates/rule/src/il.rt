// Where IL must be 1: the one place that goes by the origin, the class and ISV.
ghost use Rattle.std.specs.Prelude.{◌≡◌};
ghost use Rattle.rule.specs.Il.{il_rule};

use record::Origin;

// The classes of the long form alone that have no 16-bit instruction, a PC alignment fault, an SError interrupt and the debug exceptions
// other than BKPT: bit n is 1 for class n.
const IL_ALWAYS: u64 = 1 << 0x22 | 1 << 0x2F | 1 << 0x30 | 1 << 0x32 | 1 << 0x34 | 1 << 0x3A;

// Whether IL is 1 where it must be. AArch64 has no 16-bit instruction.
pub fn il_rule(origin: Origin, class: u32, isv: bool, il: bool) -> bool
    ensures { result ≡ il_rule origin class isv il }
{
    !(record::from_aarch64(origin) | iss::il_needed(class, isv) | bits::bit(IL_ALWAYS, class)) | il
}
