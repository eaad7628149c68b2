// The text of a log in pieces: how the log was read; of a log that was accepted or is cut
// short the line of each edition seen, the lines of each trap and the line of each injection; and where it is cut. All pieces together may
// be many times as long as the log.
#![tactic(auto)]

ghost use Rattle.std.specs.Prelude.{◌<◌, ◌≡◌, Bool, [], length, get_or};
ghost use Rattle.text.specs.Append.{Extends};
ghost use Rattle.log_section.specs.Look.{entry_given};
ghost use Rattle.log_text.specs.Lines.{entry_text};
ghost use Rattle.log_cut.specs.Whole.{count_in};
ghost use Rattle.log_pieces.specs.Text.{is_cut, shown, first_text, last_text, later_pieces, pieces_in, pieces_of};
ghost use Rattle.log_pieces.specs.Text.{trap_pieces};

mod entries;

pub use entries::known_editions;
use text::Text;
use trap_log::{Entry, LogRefusal};

// How many pieces a log's text has, whether or not its traps are explained.
pub fn count(log: &[u8]) -> usize
    ensures { (explained : Bool) → result ≡ length (pieces_of explained log.now) }
{
    2 + entries::count(log, 0) + entries::count(log, 1) + entries::count(log, 3)
}

// Trap i, or its syndrome alone where its address doesn't precede the cut.
fn trap_lines(text: &mut Text<'_>, log: &[u8], seen: u32, explained: bool, i: usize)
    requires { i < count_in (shown log.now) 1 }
    ensures { Extends (get_or (trap_pieces seen explained (shown log.now).syndromes (shown log.now).addresses) i []) text.old text.new }
{
    let Some(Entry::Syndrome(esr)) = entries::entry(log, 1, i) else {
        return;
    };
    if entries::count(log, 2) <= i {
        log_text::syndrome_line(text, esr);
        return;
    }
    let Some(Entry::Address { far, hpfar }) = entries::entry(log, 2, i) else {
        return;
    };
    trap_text::trap_lines(text, seen, explained, esr, far, hpfar);
}

// Edition or injection i, by the number of sections before its own.
fn entry_line(text: &mut Text<'_>, log: &[u8], passed: u32, i: usize)
    requires { (passed < 4) × (i < count_in (shown log.now) passed) }
    ensures { Extends (entry_text (Some (entry_given (shown log.now) passed i))) text.old text.new }
{
    log_text::entry_line(text, entries::entry(log, passed, i));
}

fn is_cut(answer: Result<usize, LogRefusal>) -> bool
    ensures { result ≡ is_cut answer }
{
    matches!(answer, Err(LogRefusal::CutShort(_)))
}

// How the log was read.
fn first_lines(text: &mut Text<'_>, answer: Result<usize, LogRefusal>)
    ensures { Extends (first_text answer) text.old text.new }
{
    log_text::read_line(text, answer);
    if is_cut(answer) {
        text.append(b"what precedes the cut, if the counts are right:\n");
    }
}

// Where the log is cut, and nothing of one that isn't.
fn last_line(text: &mut Text<'_>, log: &[u8])
    ensures { Extends (last_text log.now) text.old text.new }
{
    let Err(LogRefusal::CutShort(section)) = log_reader::read_in(log) else {
        return;
    };
    log_text::cut_line(text, section, log_cut::cut_after(log, section - 1));
}

// Kept: the branches go by a number, since a piece is asked for by its number.
// Piece i of those after the first. Past the last there is nothing to append.
fn later_piece(text: &mut Text<'_>, log: &[u8], seen: u32, explained: bool, i: usize)
    ensures { Extends (get_or (later_pieces seen explained log.now) i []) text.old text.new }
{
    let editions = entries::count(log, 0);
    if i < editions {
        entry_line(text, log, 0, i);
        return;
    }
    let j = i - editions;
    let traps = entries::count(log, 1);
    if j < traps {
        trap_lines(text, log, seen, explained, j);
        return;
    }
    let k = j - traps;
    let injections = entries::count(log, 3);
    if k < injections {
        entry_line(text, log, 3, k);
        return;
    }
    if k == injections {
        last_line(text, log);
    }
}

// Piece i of a log's text, its traps in the editions of a mask and explained where that is asked for.
pub fn piece(text: &mut Text<'_>, log: &[u8], seen: u32, explained: bool, i: usize)
    ensures { Extends (get_or (pieces_in seen explained log.now) i []) text.old text.new }
{
    if i == 0 {
        first_lines(text, log_reader::read_in(log));
    } else {
        later_piece(text, log, seen, explained, i - 1);
    }
}
