// Rules of single fields of the ISS, which every form of a syndrome word shares.
#![tactic(auto)]

ghost use Rattle.std.specs.Prelude.{◌≡◌};
ghost use Rattle.iss.specs.Rule.{condition_rule, addressing_rule, passed_rule, mmu_fault, external_rule, walk_rule, abort_rule};
ghost use Rattle.iss.specs.Rule.{extension_rule, maintenance_rule, direction_rule, immediate_rule};
ghost use Rattle.iss.specs.Il.{il_needed};

// CV 1 with COND 1111 is no condition of a trapped instruction.
pub fn condition_rule(cv: bool, cond: u32) -> bool
    ensures { result ≡ condition_rule cv cond }
{
    !(cv & (cond == 0b1111))
}

// The addressing modes of LDC and STC; the literal forms are of LDC alone.
pub fn addressing_rule(am: u32, direction: bool) -> bool
    ensures { result ≡ addressing_rule am direction }
{
    !matches!(am, 0b101 | 0b111) & (!matches!(am, 0b100 | 0b110) | direction)
}

// An SMC that isn't known to have passed its condition tells no condition.
pub fn passed_rule(ccknownpass: bool, cv: bool, cond: u32) -> bool
    ensures { result ≡ passed_rule ccknownpass cv cond }
{
    ccknownpass | !cv & (cond == 0)
}

// An address size, translation, access flag or permission fault.
pub fn mmu_fault(code: u32) -> bool
    ensures { result ≡ mmu_fault code }
{
    matches!(code, 0x00..=0x0F | 0x29 | 0x2B)
}

// EA goes with an external abort.
pub fn external_rule(ea: bool, code: u32) -> bool
    ensures { result ≡ external_rule ea code }
{
    !ea | matches!(code, 0x10..=0x1F)
}

// S1PTW goes with an MMU fault.
pub fn walk_rule(s1ptw: bool, code: u32) -> bool
    ensures { result ≡ walk_rule s1ptw code }
{
    !s1ptw | mmu_fault(code)
}

// An abort with an FnV field, which goes with a synchronous external abort.
pub fn abort_rule(fnv: bool, ea: bool, s1ptw: bool, code: u32) -> bool
    ensures { result ≡ abort_rule fnv ea s1ptw code }
{
    (!fnv | (code == 0x10)) & external_rule(ea, code) & walk_rule(s1ptw, code)
}

// Only a load of a byte or a halfword is sign-extended.
pub fn extension_rule(sse: bool, sas: u32, wnr: bool) -> bool
    ensures { result ≡ extension_rule sse sas wnr }
{
    !sse | ((sas < 2) & !wnr)
}

// Cache maintenance counts as a write.
pub fn maintenance_rule(cm: bool, wnr: bool) -> bool
    ensures { result ≡ maintenance_rule cm wnr }
{
    !cm | wnr
}

// The classes whose IL must be 1 in every form, whatever ISV is: bit n is 1 for class n.
const IL_NEEDED: u64 = 1 << 0x00
    | 1 << 0x03
    | 1 << 0x04
    | 1 << 0x05
    | 1 << 0x06
    | 1 << 0x07
    | 1 << 0x08
    | 1 << 0x0C
    | 1 << 0x0E
    | 1 << 0x12
    | 1 << 0x13
    | 1 << 0x20;

// Where IL must be 1 in every form.
pub fn il_needed(class: u32, isv: bool) -> bool
    ensures { result ≡ il_needed class isv }
{
    bits::bit(IL_NEEDED, class) | (class == 0x24) & !isv
}

// A VMRS and an MRRC read: direction 1.
pub fn direction_rule(class: u32, direction: bool) -> bool
    ensures { result ≡ direction_rule class direction }
{
    !matches!(class, 0x08 | 0x0C) | direction
}

// The 16-bit form of an SVC, or of a BKPT, has an immediate of 8 bits.
pub fn immediate_rule(il: bool, imm16: u32) -> bool
    ensures { result ≡ immediate_rule il imm16 }
{
    il | (imm16 <= 255)
}
