// What an abort writes to the guest's fault registers.
ghost use Rattle.std.specs.Prelude.{◌≡◌};
ghost use Rattle.guest.specs.declared.injection.Injection.TheVariants.{PrefetchAbort, DataAbort};
ghost use Rattle.guest.specs.Inner.{coded, address_of, report_of};

use crate::answer::InjectionRefusal;
use crate::injection::{Access, Fetch, Injection};
use exception::FaultRegisters;
use fault::{code_in, dfsr_word, ifsr_word, is_code};

// DFSR's domain has four bits.
const LAST_DOMAIN: u8 = 15;

// The word that a fault status register holds.
fn coded(encoding: Option<u32>) -> Result<u32, InjectionRefusal>
    ensures { result ≡ coded encoding }
{
    if is_code(encoding) {
        Ok(code_in(encoding))
    } else {
        Err(InjectionRefusal::UnwritableFault)
    }
}

// The address that a fault address register holds.
fn address_of(address: u64) -> Result<u32, InjectionRefusal>
    ensures { result ≡ address_of address }
{
    u32::try_from(address).map_err(|_| InjectionRefusal::WideAddress)
}

fn fetch_report(
    fetch: Fetch,
    old: FaultRegisters,
    ttbcr: u32,
) -> Result<FaultRegisters, InjectionRefusal>
    ensures { result ≡ report_of (PrefetchAbort fetch) old ttbcr }
{
    let ifsr = coded(ifsr_word(fetch.fault, ttbcr))?;
    let ifar = address_of(fetch.address)?;
    Ok(FaultRegisters { ifsr, ifar, ..old })
}

fn access_report(
    access: Access,
    old: FaultRegisters,
    ttbcr: u32,
) -> Result<FaultRegisters, InjectionRefusal>
    ensures { result ≡ report_of (DataAbort access) old ttbcr }
{
    let dfsr = coded(dfsr_word(access.fault, access.write, access.domain, ttbcr))?;
    if access.domain > LAST_DOMAIN {
        return Err(InjectionRefusal::WideDomain);
    }
    let dfar = address_of(access.address)?;
    Ok(FaultRegisters { dfsr, dfar, ..old })
}

// The fault registers after the injection, or why it is refused: the fault, or else its domain, or else its address can't be written.
pub(crate) fn report_of(
    what: Injection,
    old: FaultRegisters,
    ttbcr: u32,
) -> Result<FaultRegisters, InjectionRefusal>
    ensures { result ≡ report_of what old ttbcr }
{
    match what {
        Injection::UndefinedAt | Injection::UndefinedAfter | Injection::SupervisorCall => Ok(old),
        Injection::PrefetchAbort(fetch) => fetch_report(fetch, old, ttbcr),
        Injection::DataAbort(access) => access_report(access, old, ttbcr),
    }
}
