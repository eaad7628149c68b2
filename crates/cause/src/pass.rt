// The fault by which an abort is passed on to the guest.
ghost use Rattle.std.specs.Prelude.{◌≡◌};
ghost use Rattle.cause.specs.Pass.{passing_level, by_kind, passed_on};

use crate::kind::{Cause, Kind, Level};
use fault::Fault;

// A level that an injected fault has.
fn passing_level(level: Option<Level>) -> Option<u8>
    ensures { result ≡ passing_level level }
{
    match level {
        Some(Level::At(n @ 1..=3)) => Some(n as u8),
        _ => None,
    }
}

fn by_kind(kind: Kind, level: Option<u8>) -> Option<Fault>
    ensures { result ≡ by_kind kind level }
{
    match kind {
        Kind::External => Some(Fault::External),
        Kind::Translation => level.map(Fault::Translation),
        Kind::AccessFlag => level.map(Fault::AccessFlag),
        Kind::Permission => level.map(Fault::Permission),
        Kind::Alignment => Some(Fault::Alignment),
        Kind::AddressSize => None,
        Kind::Parity => None,
        Kind::TlbConflict => None,
        Kind::Update => None,
        Kind::Lockdown => None,
        Kind::Exclusive => None,
    }
}

// What the guest is told of an abort that the hypervisor leaves to it. No injection tells of one that was on a walk, whose level isn't 1 to
// 3, or of whose kind no injected fault is.
pub fn passed_on(cause: Cause) -> Option<Fault>
    ensures { result ≡ passed_on cause }
{
    if cause.walk {
        return None;
    }
    by_kind(cause.kind, passing_level(cause.level))
}
