// The writer over plain slices. Nothing here tells a syndrome from an address: the crate's `write` does, and no other crate can call this.
ghost use Rattle.std.specs.Prelude.{◌≡◌, ◌+◌, ◌*◌, min};
ghost use Rattle.log_section.specs.Log.{domains_fit};
ghost use Rattle.log_writer.specs.Lists.{Lists};
ghost use Rattle.log_writer.specs.Write.{Writing};

use super::answer::WriteRefusal;
use super::put;

// The length by the counts, or one more than a log may have where it is longer: no count wraps it.
fn length_by(editions: usize, syndromes: usize, addresses: usize, injections: usize) -> usize
    ensures { result ≡ min (16 + editions + syndromes * 8 + addresses * 16 + injections * 2) 65537 }
{
    if trap_log::MOST < editions.max(syndromes).max(addresses).max(injections) {
        return trap_log::MOST + 1;
    }
    let length = 16 + editions + syndromes * 8 + addresses * 16 + injections * 2;
    length.min(trap_log::MOST + 1)
}

// Whether each injection has a domain that may be. The lower byte isn't looked at.
fn domains_fit(injections: &[u16]) -> bool
    ensures { result ≡ domains_fit injections.now }
{
    for n in injections {
        if (trap_log::LAST_DOMAIN as u16) < n / 256 {
            return false;
        }
    }
    true
}

// Writes a log. A refusal leaves the whole buffer as it was, and a log leaves what lies past it.
pub(crate) fn write_lists<'a, 'b>(
    editions: &'a [u8],
    syndromes: &'a [u64],
    fars: &'a [u64],
    hpfars: &'a [u64],
    injections: &'a [u16],
    out: &'b mut [u8],
) -> Result<usize, WriteRefusal>
    ensures { Writing record { editions = editions.now; syndromes = syndromes.now; fars = fars.now; hpfars = hpfars.now; injections = injections.now } out.old out.new result }
{
    let addresses = fars.len().max(hpfars.len());
    let length = length_by(editions.len(), syndromes.len(), addresses, injections.len());
    if trap_log::MOST < length {
        return Err(WriteRefusal::TooLong);
    }
    let fit = domains_fit(injections);
    if syndromes.len() != fars.len() {
        return Err(WriteRefusal::Unequal);
    }
    if syndromes.len() != hpfars.len() {
        return Err(WriteRefusal::Unequal);
    }
    if !fit {
        return Err(WriteRefusal::WideDomain);
    }
    if out.len() < length {
        return Err(WriteRefusal::NoRoom);
    }
    let second = put::section(out, 0, editions);
    let third = put::section(out, second, syndromes);
    let fourth = put::pairs(out, third, fars, hpfars);
    put::section(out, fourth, injections);
    Ok(length)
}
