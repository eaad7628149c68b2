// Trap logs for other languages: read, looked at and written.
#![tactic(auto)]

ghost use Rattle.std.specs.Prelude.{◌≡◌};
ghost use Rattle.trap_log.specs.Answer.{read_of};
ghost use Rattle.log_reader.specs.Reader.{look_in};
ghost use Rattle.log_writer.specs.Lists.{Lists};
ghost use Rattle.log_calls.specs.Calls.{ReadLog, entry_in, first_in, second_in, found_in, WrittenLog};

use trap_log::Entry;

// Reads a log.
pub fn knucklepin_log_read(log: &[u8], answer: &mut [u64; 2]) -> u32
    ensures { ReadLog (read_of log.now) result answer.new }
{
    let read = log_reader::read_in(log);
    *answer = [
        trap_log::gone_in(read) as u64,
        trap_log::section_in(read) as u64,
    ];
    trap_log::number(read)
}

// The section that has such entries, 1 to 4; 0 for no entry.
// Kept: numbers for kinds, in the C interface (`knucklepin_log_look`).
fn entry_in(entry: Option<Entry>) -> u64
    ensures { result ≡ entry_in entry }
{
    match entry {
        Some(Entry::Edition(_)) => 1,
        Some(Entry::Syndrome(_)) => 2,
        Some(Entry::Address { far: _, hpfar: _ }) => 3,
        Some(
            Entry::Injection {
                injection: _,
                domain: _,
            },
        ) => 4,
        None => 0,
    }
}

fn first_in(entry: Option<Entry>) -> u64
    ensures { result ≡ first_in entry }
{
    match entry {
        Some(Entry::Edition(edition)) => edition as u64,
        Some(Entry::Syndrome(esr)) => esr.0,
        Some(Entry::Address { far, hpfar: _ }) => far.0,
        Some(
            Entry::Injection {
                injection,
                domain: _,
            },
        ) => injection as u64,
        None => 0,
    }
}

fn second_in(entry: Option<Entry>) -> u64
    ensures { result ≡ second_in entry }
{
    match entry {
        Some(Entry::Address { far: _, hpfar }) => hpfar.0,
        Some(
            Entry::Injection {
                injection: _,
                domain,
            },
        ) => domain as u64,
        _ => 0,
    }
}

// Looks at entry i of the section after so many.
pub fn knucklepin_log_look(log: &[u8], passed: u32, i: u64, found: &mut [u64; 5])
    ensures { found.new ≡ found_in (look_in log.now passed i) }
{
    let look = log_reader::look_in(log, passed, i as usize);
    let (whole, count) = match look.section {
        Some(section) => (1, section.count as u64),
        None => (0, 0),
    };
    *found = [
        whole,
        count,
        entry_in(look.entry),
        first_in(look.entry),
        second_in(look.entry),
    ];
}

// Writes a log.
pub fn knucklepin_log_write_raw<'a, 'b>(
    editions: &'a [u8],
    syndromes: &'a [u64],
    fars: &'a [u64],
    hpfars: &'a [u64],
    injections: &'a [u16],
    buffer: &'b mut [u8],
    length: &'b mut u64,
) -> u32
    ensures { WrittenLog record { editions = editions.now; syndromes = syndromes.now; fars = fars.now; hpfars = hpfars.now; injections = injections.now } buffer.old result buffer.new length.new }
{
    let written = log_rewrite::write_raw(editions, syndromes, fars, hpfars, injections, buffer);
    *length = log_writer::length_in(written) as u64;
    log_writer::number(written)
}
