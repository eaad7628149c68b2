// What stands whole in a log, also in one that is cut short: the entries that precede the cut, and where the cut is. A section is named by
// how many lie before it.
#![tactic(auto)]

ghost use Rattle.std.specs.Prelude.{◌≡◌, cond, ◌≤◌, ◌<◌, length, drop};
ghost use Rattle.log_section.specs.Section.{injection_size, count_of, whole_of, rest_after};
ghost use Rattle.log_cut.specs.Whole.{standing, whole_count, whole_entry, cut_of, cut_after};

use trap_log::Entry;

// Where a section is cut.
#[derive(Clone, Copy)]
pub enum Cut {
    // Within its count, of which so many bytes are there.
    Count {
        bytes: usize,
    },
    // After so many whole entries of those that its count says, and so many bytes behind the count.
    Entries {
        whole: usize,
        count: usize,
        bytes: usize,
    },
}

// Where a section starts, or the log's end where one before it is cut.
fn start(log: &[u8], passed: u32) -> usize
    requires { passed < 4 }
    ensures { (result ≤ length log.now) × (drop result log.now ≡ rest_after log.now passed) }
{
    let place = trap_log::skip(log, 0, 0, passed);
    let reached = place.passed;
    if reached == passed {
        return place.at;
    }
    log.len()
}

// Where the section is cut that some bytes begin with. A section whose entries have no size is whole where its count is.
fn cut_in(rest: &[u8], size: u32) -> Cut
    requires { 0 < size }
    ensures { result ≡ cut_of size rest.now }
{
    let bytes = rest.len();
    match trap_log::front(rest, 0) {
        Some(section) => {
            let count = section.count;
            let behind = bytes - 4;
            let whole = count.min(behind / (size as usize));
            Cut::Entries {
                whole,
                count,
                bytes: behind,
            }
        }
        None => Cut::Count { bytes },
    }
}

// How many entries stand whole there.
fn whole_in(rest: &[u8], size: u32) -> usize
    requires { 0 < size }
    ensures { result ≡ standing size rest.now }
{
    match cut_in(rest, size) {
        Cut::Entries {
            whole,
            count: _,
            bytes: _,
        } => whole,
        Cut::Count { bytes: _ } => 0,
    }
}

// How many injections there are, where their section is whole.
fn injections_in(rest: &[u8]) -> usize
    ensures { result ≡ cond (whole_of injection_size rest.now) (count_of rest.now) 0 }
{
    match trap_log::front(rest, trap_log::size_of(3)) {
        Some(section) => section.count,
        None => 0,
    }
}

// Where a section is cut.
pub fn cut_after(log: &[u8], passed: u32) -> Cut
    ensures { result ≡ cut_after log.now passed }
{
    if 4 <= passed {
        return Cut::Count { bytes: 0 };
    }
    let at = start(log, passed);
    cut_in(&log[at..], trap_log::size_of(passed))
}

// How many entries of a section stand whole.
pub fn count(log: &[u8], passed: u32) -> usize
    ensures { result ≡ whole_count log.now passed }
{
    if 4 <= passed {
        return 0;
    }
    let at = start(log, passed);
    if passed == 3 {
        return injections_in(&log[at..]);
    }
    whole_in(&log[at..], trap_log::size_of(passed))
}

// Entry i of those of a section that stand whole.
pub fn entry(log: &[u8], passed: u32, i: usize) -> Option<Entry>
    ensures { result ≡ whole_entry log.now passed i }
{
    if count(log, passed) <= i {
        return None;
    }
    let at = start(log, passed);
    let place = at + 4 + i * (trap_log::size_of(passed) as usize);
    trap_log::entry_at(log, passed, place)
}
