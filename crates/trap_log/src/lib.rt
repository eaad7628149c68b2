// A trap log: what a board saw, in four sections of bytes that can be sent.
//
// How a log is read, and the sections and entries of log_section, handed on. Entries are carried and not judged, but for a domain's size.
#![tactic(auto)]

ghost use Rattle.trap_log.specs.Answer.{Reading};

mod answer;
mod sections;

pub use answer::{LogRefusal, gone_in, number, section_in};
pub use log_section::{Entry, Look, Place, Section, entry_at, front, look_at, size_of, skip};
pub use sections::LAST_DOMAIN;

// The longest log: 65,536 bytes.
pub const MOST: usize = 65536;

// Reads a log.
pub fn read(log: &[u8]) -> Result<usize, LogRefusal>
    ensures { Reading log.now result }
{
    if MOST < log.len() {
        return Err(LogRefusal::TooLong);
    }
    sections::read_all(log)
}
