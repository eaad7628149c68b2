// The four sections of a log, one after the other.
ghost use Rattle.std.specs.Prelude.{◌≡◌, ◌+◌, ◌*◌, ◌≤◌, length, drop};
ghost use Rattle.log_section.specs.Section.{injection_size};
ghost use Rattle.log_section.specs.Log.{injection_in, entries_in, domains_fit};
ghost use Rattle.trap_log.specs.Answer.{read_of};

use super::answer::LogRefusal;
use log_section::{ADDRESS, EDITION, INJECTION, SYNDROME, front};

// The largest domain that an injection may have.
pub const LAST_DOMAIN: u8 = 15;

// Whether each of so many injections, behind their count, has a domain that may be: its second byte. The first isn't looked at.
fn domains_fit(rest: &[u8], count: usize) -> bool
    requires { 4 + count * injection_size ≤ length rest.now }
    ensures { result ≡ domains_fit (entries_in injection_size injection_in count (drop 4 rest.now)) }
{
    for i in 0..count {
        if LAST_DOMAIN < rest[5 + 2 * i] {
            return false;
        }
    }
    true
}

// Reads a log that is not too long. Nothing may be left after the last section. That the syndrome and address counts agree is tested next,
// and the domains last.
pub fn read_all(log: &[u8]) -> Result<usize, LogRefusal>
    requires { length log.now ≤ 65536 }
    ensures { result ≡ read_of log.now }
{
    let editions = front(log, EDITION).ok_or(LogRefusal::CutShort(1))?;
    let second = &log[editions.end..];
    let syndromes = front(second, SYNDROME).ok_or(LogRefusal::CutShort(2))?;
    let third = &second[syndromes.end..];
    let addresses = front(third, ADDRESS).ok_or(LogRefusal::CutShort(3))?;
    let fourth = &third[addresses.end..];
    let injections = front(fourth, INJECTION).ok_or(LogRefusal::CutShort(4))?;
    if injections.end < fourth.len() {
        return Err(LogRefusal::LeftOver);
    }
    if syndromes.count != addresses.count {
        return Err(LogRefusal::Unequal);
    }
    if !domains_fit(fourth, injections.count) {
        return Err(LogRefusal::WideDomain);
    }
    Ok(4 + editions.count + syndromes.count + addresses.count + injections.count)
}
