// What a record tells beside its layout: the sort of exception, and by it what the address registers hold.
ghost use Rattle.std.specs.Prelude.{◌≡◌};
ghost use Rattle.record.specs.Sort.{sort_of};
ghost use Rattle.record.specs.Addresses.{addresses_of};

use super::kinds::{Addresses, Record, Sort};

// The one place that goes by the kind for what isn't layout.
pub fn sort(r: Record) -> Sort
    ensures { result ≡ sort_of r }
{
    match r {
        Record::Plain(x) => {
            if x.class == 0x22 {
                Sort::Addressed
            } else {
                Sort::Plain
            }
        }
        Record::Wfx(_) => Sort::Plain,
        Record::Mcr(_) => Sort::Plain,
        Record::Mcrr(_) => Sort::Plain,
        Record::Ldc(_) => Sort::Plain,
        Record::Simd(_) => Sort::Plain,
        Record::Call(_) => Sort::Plain,
        Record::Smc(_) => Sort::Plain,
        Record::InstructionAbort(x) => Sort::InstructionAbort(x),
        Record::DataAbort(x) => Sort::DataAbort(x),
        Record::Debug(_) => Sort::Plain,
        Record::Step(_) => Sort::Plain,
        Record::Watchpoint(_) => Sort::Addressed,
        Record::SError(x) => Sort::SError(x),
        Record::System(_) => Sort::Plain,
    }
}

// Only an abort, a PC alignment fault, class 0x22, and a watchpoint, class 0x34, have an address.
pub fn addresses(r: Record) -> Option<Addresses>
    ensures { result ≡ addresses_of r }
{
    match sort(r) {
        Sort::Plain => None,
        Sort::Addressed => Some(Addresses::Virtual),
        Sort::InstructionAbort(x) => Some(Addresses::Abort {
            fnv: x.fnv,
            s1ptw: x.s1ptw,
            code: x.code,
        }),
        Sort::DataAbort(x) => Some(Addresses::Abort {
            fnv: x.fnv,
            s1ptw: x.s1ptw,
            code: x.code,
        }),
        Sort::SError(_) => None,
    }
}
