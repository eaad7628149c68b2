// A log that is read and written again (request C-14): an accepted log comes out with the same bytes.
#![tactic(auto)]

ghost use Rattle.std.specs.Prelude.{◌≡◌};
ghost use Rattle.log_section.specs.Log.{entries_of};
ghost use Rattle.log_writer.specs.Lists.{lists_of};
ghost use Rattle.log_writer.specs.Write.{Writing};
ghost use Rattle.log_rewrite.specs.Rewrite.{Taken, Rewriting};
ghost use Rattle.log_rewrite.specs.declared.RewriteRefusal.TheVariants.{Unread, Unwritten};

mod entries;
mod labelled;

pub use labelled::write_raw;
use log_writer::WriteRefusal;
use trap_log::LogRefusal;

// The reader's refusal, or the writer's.
#[derive(Clone, Copy, PartialEq, Eq)]
pub enum RewriteRefusal {
    Unread(LogRefusal),
    Unwritten(WriteRefusal),
}

impl From<LogRefusal> for RewriteRefusal {
    ghost from_gives = { λ r e. e ≡ Unread r };

    fn from(refusal: LogRefusal) -> RewriteRefusal {
        RewriteRefusal::Unread(refusal)
    }
}

impl From<WriteRefusal> for RewriteRefusal {
    ghost from_gives = { λ r e. e ≡ Unwritten r };

    fn from(refusal: WriteRefusal) -> RewriteRefusal {
        RewriteRefusal::Unwritten(refusal)
    }
}

// No accepted log has more traps: a syndrome and its address are 24 bytes.
const TRAPS: usize = 2730;

// Nor more injections: four counts are 16 bytes, and an injection two.
const INJECTIONS: usize = 32760;

// Writes the entries of an accepted log.
fn written(log: &[u8], out: &mut [u8]) -> Result<usize, WriteRefusal>
    requires { Taken log.now }
    ensures { Writing (lists_of (entries_of log.now)) out.old out.new result }
{
    let traps = entries::count(log, 1);
    let last = entries::count(log, 3);
    let mut syndromes = [0u64; TRAPS];
    let mut fars = [0u64; TRAPS];
    let mut hpfars = [0u64; TRAPS];
    let mut injections = [0u16; INJECTIONS];
    entries::words(log, 1, false, &mut syndromes);
    entries::words(log, 2, false, &mut fars);
    entries::words(log, 2, true, &mut hpfars);
    entries::injections(log, &mut injections);
    let editions = entries::bytes(log, 0);
    labelled::write_raw(
        editions,
        &syndromes[0..traps],
        &fars[0..traps],
        &hpfars[0..traps],
        &injections[0..last],
        out,
    )
}

// Reads a log and writes its entries into a buffer. The same bytes stand at the buffer's front where the log is accepted and has room
// there; else the buffer is as it was.
pub fn rewrite(log: &[u8], out: &mut [u8]) -> Result<usize, RewriteRefusal>
    ensures { Rewriting log.now out.old out.new result }
{
    trap_log::read(log)?;
    Ok(written(log, out)?)
}
