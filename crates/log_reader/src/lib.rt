// A reader that holds a lent log and its place in it. It answers how the log is read, moves over it section by section, and copies nothing.
//
// Where the log is refused, a look still gives what stands in the sections that are whole: the answer is for the caller to ask.
#![tactic(auto)]

ghost use Rattle.std.specs.Prelude.{◌≡◌};
ghost use Rattle.trap_log.specs.Answer.{Reading};
ghost use Rattle.log_section.specs.Look.{look_at};
ghost use Rattle.log_reader.specs.Reader.{place_from, look_in};

use trap_log::{LogRefusal, Look};

#[derive(Clone, Copy)]
pub struct LogReader<'a> {
    pub log: &'a [u8],
    // How many sections and how many bytes lie before the reader's place.
    pub passed: u32,
    pub at: usize,
}

// A reader at the log's first section.
pub fn open<'a>(log: &'a [u8]) -> LogReader<'a>
    ensures { (result.log ≡ log.entry) × (result.passed ≡ 0) × (result.at ≡ 0) }
{
    LogReader {
        log,
        passed: 0,
        at: 0,
    }
}

// How the log is read, whatever the reader's place in it.
pub fn read<'a>(r: LogReader<'a>) -> Result<usize, LogRefusal>
    ensures { Reading r.entry.log.now result }
{
    trap_log::read(r.log)
}

// The reader past n sections, or as many as are whole.
pub fn past<'a>(r: LogReader<'a>, n: u32) -> LogReader<'a>
    ensures { (result.log ≡ r.entry.log) × (result.passed ≡ (place_from r.entry.log.now r.entry.passed r.entry.at n).passed) × (result.at ≡ (place_from r.entry.log.now r.entry.passed r.entry.at n).at) }
{
    let p = trap_log::skip(r.log, r.passed, r.at, n);
    LogReader {
        log: r.log,
        passed: p.passed,
        at: p.at,
    }
}

// The section at the reader's place, and its entry i.
pub fn look<'a>(r: LogReader<'a>, i: usize) -> Look
    ensures { result ≡ look_at r.entry.log.now r.entry.passed r.entry.at i }
{
    trap_log::look_at(r.log, r.passed, r.at, i)
}

// For a caller that has the plain slice: how the log is read.
pub fn read_in(log: &[u8]) -> Result<usize, LogRefusal>
    ensures { Reading log.now result }
{
    read(open(log))
}

// For a caller that has the plain slice: the section after so many, and its entry i.
pub fn look_in(log: &[u8], passed: u32, i: usize) -> Look
    ensures { result ≡ look_in log.now passed i }
{
    look(past(open(log), passed), i)
}
