// Which classes the short form has, and which each kind of record has.
ghost use Rattle.std.specs.Prelude.{◌≡◌};
ghost use Rattle.bits.specs.Among.{among};
ghost use Rattle.short_record.specs.Class.{is_class, call_classes, head_of};

use super::kinds::Record;
use record::{Head, mcr_class, mcrr_class, plain_class, without_isv};

fn call_class(class: u32) -> bool
    ensures { result ≡ among call_classes class }
{
    matches!(class, 0x11 | 0x12)
}

// Whether the class is in the build.
pub fn is_class(class: u32) -> bool
    ensures { result ≡ is_class class }
{
    matches!(class, 0x00 | 0x01 | 0x03..=0x08 | 0x0C | 0x0E | 0x11..=0x13 | 0x20 | 0x22 | 0x24)
}

// A record's class, whether its kind has that class, IL and ISV.
pub fn head(r: Record) -> Head
    ensures { result ≡ head_of r }
{
    match r {
        Record::Plain(x) => without_isv(x.class, plain_class(x.class), x.il),
        Record::Wfx(x) => without_isv(0x01, true, x.il),
        Record::Mcr(x) => without_isv(x.class, mcr_class(x.class), x.il),
        Record::Mcrr(x) => without_isv(x.class, mcrr_class(x.class), x.il),
        Record::Ldc(x) => without_isv(0x06, true, x.il),
        Record::Simd(x) => without_isv(0x07, true, x.il),
        Record::Call(x) => without_isv(x.class, call_class(x.class), x.il),
        Record::Smc(x) => without_isv(0x13, true, x.il),
        Record::InstructionAbort(x) => without_isv(0x20, true, x.il),
        Record::DataAbort(x) => Head {
            class: 0x24,
            own: true,
            il: x.il,
            isv: x.isv,
        },
    }
}
