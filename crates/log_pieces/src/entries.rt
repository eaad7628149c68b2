// What is shown of a log: the entries that stand whole in one that was accepted or is cut short, and none of another that is refused. A
// section is named by how many lie before it.
ghost use Rattle.std.specs.Prelude.{◌<◌, ◌≡◌, length, get_or};
ghost use Rattle.trap_log.specs.Answer.{read_of};
ghost use Rattle.log_section.specs.Look.{entry_given};
ghost use Rattle.log_cut.specs.Whole.{count_in};
ghost use Rattle.bits.specs.Among.{among};
ghost use Rattle.log_pieces.specs.Text.{is_shown, shown, seen_mask};

use trap_log::{Entry, LogRefusal};

fn is_shown(log: &[u8]) -> bool
    ensures { result ≡ is_shown (read_of log.now) }
{
    matches!(
        log_reader::read_in(log),
        Ok(_) | Err(LogRefusal::CutShort(_))
    )
}

// How many entries of a section are shown.
pub(crate) fn count(log: &[u8], passed: u32) -> usize
    requires { passed < 4 }
    ensures { result ≡ count_in (shown log.now) passed }
{
    if is_shown(log) {
        return log_cut::count(log, passed);
    }
    0
}

// Entry i of a section.
pub(crate) fn entry(log: &[u8], passed: u32, i: usize) -> Option<Entry>
    requires { (passed < 4) × (i < count_in (shown log.now) passed) }
    ensures { result ≡ Some (entry_given (shown log.now) passed i) }
{
    log_cut::entry(log, passed, i)
}

// Edition i of those seen.
fn edition_at(log: &[u8], i: usize) -> u32
    requires { i < length (shown log.now).editions }
    ensures { result ≡ get_or (shown log.now).editions i 0 }
{
    if let Some(Entry::Edition(e)) = entry(log, 0, i) {
        e as u32
    } else {
        0
    }
}

// Whether an edition is among those seen.
fn seen(log: &[u8], edition: u32) -> bool
    ensures { result ≡ among (shown log.now).editions edition }
{
    for i in 0..count(log, 0) {
        if edition_at(log, i) == edition {
            return true;
        }
    }
    false
}

// The mask of the known editions among those seen.
pub fn known_editions(log: &[u8]) -> u32
    ensures { result ≡ seen_mask (shown log.now) }
{
    let mut mask: u32 = 0;
    let mut bit: u32 = 1;
    for e in 0..edition::EDITIONS {
        if seen(log, e) {
            mask += bit;
        }
        bit *= 2;
    }
    mask
}
