// Fault codes by kind, level and walk.
ghost use Rattle.std.specs.Prelude.{◌≡◌};
ghost use Rattle.cause.specs.Kind.{kind_of, level_of, walk_of, cause_at};

use bits::field32;

#[derive(Clone, Copy)]
pub enum Kind {
    // A synchronous external abort.
    External,
    Translation,
    AccessFlag,
    Permission,
    Alignment,
    AddressSize,
    // A synchronous parity or ECC error.
    Parity,
    TlbConflict,
    // An unsupported atomic hardware update.
    Update,
    // IMPLEMENTATION DEFINED: lockdown.
    Lockdown,
    // IMPLEMENTATION DEFINED: an unsupported exclusive or atomic access.
    Exclusive,
}

// The level of a lookup.
#[derive(Clone, Copy)]
pub enum Level {
    // Level -1.
    Minus1,
    At(u32),
}

#[derive(Clone, Copy)]
pub struct Cause {
    pub kind: Kind,
    // Where the code has one.
    pub level: Option<Level>,
    pub walk: bool,
}

// The kind of a code. No edition has a code but these, and 0x35 is the last.
#[tactic(auto, unfolding(crate::specs::Kind::kind_of))]
fn kind_of(code: u32) -> Kind
    ensures { result ≡ kind_of code }
{
    match code {
        0x00..=0x03 | 0x29 => Kind::AddressSize,
        0x04..=0x07 | 0x2B => Kind::Translation,
        0x08..=0x0B => Kind::AccessFlag,
        0x0C..=0x0F => Kind::Permission,
        0x10..=0x17 => Kind::External,
        0x18..=0x1F => Kind::Parity,
        0x21 => Kind::Alignment,
        0x30 => Kind::TlbConflict,
        0x31 => Kind::Update,
        0x34 => Kind::Lockdown,
        _ => Kind::Exclusive,
    }
}

// Level -1 has codes of its own; every other level stands in bits 1:0.
#[tactic(auto, unfolding(crate::specs::Kind::level_of))]
fn level_of(code: u32) -> Option<Level>
    ensures { result ≡ level_of code }
{
    match code {
        0x13 | 0x1B | 0x29 | 0x2B => Some(Level::Minus1),
        0x00..=0x0F | 0x14..=0x17 | 0x1C..=0x1F => Some(Level::At(field32(code as u64, 1, 0))),
        _ => None,
    }
}

// A stage 2 fault on a stage 1 walk, or a code of the walk itself.
fn walk_of(s1ptw: bool, code: u32) -> bool
    ensures { result ≡ walk_of s1ptw code }
{
    s1ptw | matches!(code, 0x13..=0x17 | 0x1B..=0x1F)
}

pub(crate) fn cause_at(s1ptw: bool, code: u32) -> Cause
    ensures { result ≡ cause_at s1ptw code }
{
    Cause {
        kind: kind_of(code),
        level: level_of(code),
        walk: walk_of(s1ptw, code),
    }
}
