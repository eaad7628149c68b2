// The entries of a log as slices that a writer takes. A section is named by how many lie before it.
ghost use Rattle.std.specs.Prelude.{◌≡◌, [], ◌∷◌, ℕ, ◌<◌, length, get_or};
ghost use Rattle.log_section.specs.Section.{sizes, count_after};
ghost use Rattle.log_section.specs.Log.{byte_in, entries_in, body_after};
ghost use Rattle.log_reader.specs.Reader.{look_in};
ghost use Rattle.log_rewrite.specs.Rewrite.{Taken};
ghost use Rattle.log_rewrite.specs.Inner.{count_in, entry_word, half_in};

use trap_log::Entry;

// How many entries a section has.
pub fn count(log: &[u8], passed: u32) -> usize
    ensures { result ≡ count_in (look_in log.now passed 0).section }
{
    match log_reader::look_in(log, passed, 0).section {
        Some(section) => section.count,
        None => 0,
    }
}

// The entries of a section that are one byte each: they are the log's own bytes.
pub fn bytes(log: &[u8], passed: u32) -> &[u8]
    requires { Taken log.now × (passed < 4) × (get_or sizes passed 0 ≡ 1) }
    ensures { result.now ≡ entries_in 1 byte_in (count_after log.now passed) (body_after log.now passed) }
{
    let p = trap_log::skip(log, 0, 0, passed);
    let first = p.at + 4;
    let end = first + count(log, passed);
    &log[first..end]
}

// A word of an entry: a syndrome, and of an address FAR first and HPFAR second.
fn word_in(entry: Option<Entry>, second: bool) -> u64
    ensures { result ≡ entry_word entry second }
{
    match entry {
        Some(Entry::Syndrome(esr)) => esr.0,
        Some(Entry::Address { far, hpfar }) => { if second { hpfar.0 } else { far.0 } }
        _ => 0,
    }
}

// Fills a buffer with a word of each entry of a section.
pub fn words(log: &[u8], passed: u32, second: bool, out: &mut [u64])
    ensures { (i : ℕ) → i < length out.new → get_or out.new i 0 ≡ entry_word (look_in log.now passed i).entry second }
{
    for (i, word) in out.iter_mut().enumerate() {
        *word = word_in(log_reader::look_in(log, passed, i).entry, second);
    }
}

// An injection as the number of its two bytes: its own, and above it its domain.
fn half_in(entry: Option<Entry>) -> u16
    ensures { result ≡ half_in entry }
{
    match entry {
        Some(Entry::Injection { injection, domain }) => injection as u16 + 256 * (domain as u16),
        _ => 0,
    }
}

// Fills a buffer with the injections.
// Kept beside `words`: one function for both would take a closure, and the contract of each would go through it: no plainer.
pub fn injections(log: &[u8], out: &mut [u16])
    ensures { (i : ℕ) → i < length out.new → get_or out.new i 0 ≡ half_in (look_in log.now 3 i).entry }
{
    for (i, half) in out.iter_mut().enumerate() {
        *half = half_in(log_reader::look_in(log, 3, i).entry);
    }
}
