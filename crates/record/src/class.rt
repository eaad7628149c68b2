// Which classes there are from each origin, and which each kind of record has. The kinds with several classes have them in both forms
// alike, but for the calls.
ghost use Rattle.std.specs.Prelude.{◌≡◌};
ghost use Rattle.bits.specs.Among.{among};
ghost use Rattle.record.specs.Class.{is_class, plain_classes, mcr_classes, mcrr_classes, call_classes};
ghost use Rattle.record.specs.Class.{debug_classes, without_isv, head_of};

use super::kinds::{Head, Record};
use super::origin::Origin;

pub fn plain_class(class: u32) -> bool
    ensures { result ≡ among plain_classes class }
{
    matches!(class, 0x00 | 0x0E | 0x22)
}

pub fn mcr_class(class: u32) -> bool
    ensures { result ≡ among mcr_classes class }
{
    matches!(class, 0x03 | 0x05 | 0x08)
}

pub fn mcrr_class(class: u32) -> bool
    ensures { result ≡ among mcrr_classes class }
{
    matches!(class, 0x04 | 0x0C)
}

fn call_class(class: u32) -> bool
    ensures { result ≡ among call_classes class }
{
    matches!(class, 0x11 | 0x12 | 0x15 | 0x16 | 0x17 | 0x38)
}

fn debug_class(class: u32) -> bool
    ensures { result ≡ among debug_classes class }
{
    matches!(class, 0x30 | 0x3A)
}

// Whether the class is among those of the trap's origin.
pub fn is_class(origin: Origin, class: u32) -> bool
    ensures { result ≡ is_class origin class }
{
    match origin {
        Origin::AArch32 => matches!(
            class,
            0x00 | 0x01
                | 0x03..=0x08
                | 0x0C
                | 0x0E
                | 0x11..=0x13
                | 0x20
                | 0x22
                | 0x24
                | 0x2F
                | 0x30
                | 0x32
                | 0x34
                | 0x38
                | 0x3A
        ),
        Origin::AArch64 => matches!(
            class,
            0x00 | 0x01 | 0x07 | 0x0E | 0x15..=0x18 | 0x20 | 0x22 | 0x24 | 0x2F | 0x30 | 0x32 | 0x34
        ),
    }
}

// The head of a record that isn't a data abort.
pub fn without_isv(class: u32, own: bool, il: bool) -> Head
    ensures { result ≡ without_isv class own il }
{
    Head {
        class,
        own,
        il,
        isv: false,
    }
}

// A record's class, whether its kind has that class, IL and ISV.
pub fn head(r: Record) -> Head
    ensures { result ≡ head_of r }
{
    match r {
        Record::Plain(x) => without_isv(x.class, plain_class(x.class), x.il),
        Record::Wfx(x) => without_isv(0x01, true, x.il),
        Record::Mcr(x) => without_isv(x.class, mcr_class(x.class), x.il),
        Record::Mcrr(x) => without_isv(x.class, mcrr_class(x.class), x.il),
        Record::Ldc(x) => without_isv(0x06, true, x.il),
        Record::Simd(x) => without_isv(0x07, true, x.il),
        Record::Call(x) => without_isv(x.class, call_class(x.class), x.il),
        Record::Smc(x) => without_isv(0x13, true, x.il),
        Record::InstructionAbort(x) => without_isv(0x20, true, x.il),
        Record::DataAbort(x) => Head {
            class: 0x24,
            own: true,
            il: x.il,
            isv: x.isv,
        },
        Record::Debug(x) => without_isv(x.class, debug_class(x.class), x.il),
        Record::Step(x) => without_isv(0x32, true, x.il),
        Record::Watchpoint(x) => without_isv(0x34, true, x.il),
        Record::SError(x) => without_isv(0x2F, true, x.il),
        Record::System(x) => without_isv(0x18, true, x.il),
    }
}
