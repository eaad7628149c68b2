// Access by entry: what stands at a place in a log.
//
// A place is how many sections and how many bytes lie before it. Any place may be asked for: where no whole section of the four stands,
// there is none.
ghost use Rattle.std.specs.Prelude.{◌≡◌, ◌+◌, ◌≤◌, ◌<◌, length, drop, get_or};
ghost use Rattle.log_section.specs.Section.{sizes};
ghost use Rattle.log_section.specs.Look.{section_at, skip_from, entry_in, entry_at, look_at};

use super::number::eight;
use super::section::{ADDRESS, EDITION, INJECTION, SYNDROME, Section, front};
use registers::{Esr, Far, Hpfar};

// Kept: a section is named by a number, since the C interface (`knucklepin_log_look`) may ask for any, and past the fourth there is none.
#[derive(Clone, Copy)]
pub struct Place {
    pub passed: u32,
    pub at: usize,
}

// Each word is a struct of its kind, so that a caller can't exchange ESR, FAR and HPFAR.
#[derive(Clone, Copy)]
pub enum Entry {
    Edition(u8),
    Syndrome(Esr),
    Address { far: Far, hpfar: Hpfar },
    Injection { injection: u8, domain: u8 },
}

// A section, and one entry of it.
#[derive(Clone, Copy)]
pub struct Look {
    pub section: Option<Section>,
    pub entry: Option<Entry>,
}

// The size of an entry, by the number of sections before its own.
pub fn size_of(passed: u32) -> u32
    ensures { result ≡ get_or sizes passed 0 }
{
    match passed {
        0 => EDITION,
        1 => SYNDROME,
        2 => ADDRESS,
        3 => INJECTION,
        _ => 0,
    }
}

fn section_at(log: &[u8], passed: u32, at: usize) -> Option<Section>
    ensures { result ≡ section_at log.now passed at }
{
    if 4 <= passed {
        return None;
    }
    front(log.get(at..)?, size_of(passed))
}

// Moves past n sections, or as many as are whole.
pub fn skip(log: &[u8], passed: u32, at: usize, n: u32) -> Place
    ensures { result ≡ skip_from log.now n record { passed = passed; at = at } }
{
    let mut place = Place { passed, at };
    for _ in 0..n {
        let Some(section) = section_at(log, place.passed, place.at) else {
            return place;
        };
        place = Place {
            passed: place.passed + 1,
            at: place.at + section.end,
        };
    }
    place
}

fn entry_in(log: &[u8], passed: u32, at: usize) -> Entry
    requires { (passed < 4) × (at + get_or sizes passed 0 ≤ length log.now) }
    ensures { result ≡ entry_in passed (drop at log.now) }
{
    match passed {
        0 => Entry::Edition(log[at]),
        1 => Entry::Syndrome(Esr(eight(log, at))),
        2 => Entry::Address {
            far: Far(eight(log, at)),
            hpfar: Hpfar(eight(log, at + 8)),
        },
        _ => Entry::Injection {
            injection: log[at],
            domain: log[at + 1],
        },
    }
}

// The entry at a place, whether or not its section is whole, and none where the log ends before it does.
pub fn entry_at(log: &[u8], passed: u32, at: usize) -> Option<Entry>
    ensures { result ≡ entry_at log.now passed at }
{
    if 4 <= passed {
        return None;
    }
    let rest = log.get(at..)?;
    if rest.len() < (size_of(passed) as usize) {
        return None;
    }
    Some(entry_in(log, passed, at))
}

// The section at a place, and its entry i.
pub fn look_at(log: &[u8], passed: u32, at: usize, i: usize) -> Look
    ensures { result ≡ look_at log.now passed at i }
{
    let Some(section) = section_at(log, passed, at) else {
        return Look {
            section: None,
            entry: None,
        };
    };
    let mut entry = None;
    if i < section.count {
        let from = at + 4 + i * (size_of(passed) as usize);
        entry = Some(entry_in(log, passed, from));
    }
    Look {
        section: Some(section),
        entry,
    }
}
