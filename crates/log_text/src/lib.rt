// A trap log as lines of text.
#![tactic(auto)]

ghost use Rattle.std.specs.Prelude.{◌++◌};
ghost use Rattle.text.specs.Ascii.{ascii};
ghost use Rattle.text.specs.Append.{Extends};
ghost use Rattle.log_text.specs.Lines.{decimal_field, hex_field, refused_text, read_text, edition_text, injection_text, entry_text};
ghost use Rattle.log_text.specs.Lines.{edition_field, words_text};

mod cut_lines;

pub use cut_lines::{cut_line, syndrome_line};
use registers::{Esr, Far, Hpfar};
use text::Text;
use trap_log::{Entry, LogRefusal};

// Appends a space and a number.
pub fn decimal_field(text: &mut Text<'_>, n: u64)
    ensures { Extends (decimal_field n) text.old text.new }
{
    text.append(b" ");
    text.append_decimal(n);
}

pub fn hex_field(text: &mut Text<'_>, n: u64)
    ensures { Extends (hex_field n) text.old text.new }
{
    text.append(b" ");
    text.append_hex(n);
}

// Appends a space and an edition as it is typed. A number that is no edition's is said to be unknown.
pub fn edition_field(text: &mut Text<'_>, edition: u32)
    ensures { Extends (edition_field edition) text.old text.new }
{
    if edition < edition::EDITIONS {
        hex_field(text, edition as u64);
    } else {
        decimal_field(text, edition as u64);
        text.append(b" unknown");
    }
}

// A line of a word and a number.
fn numbered(text: &mut Text<'_>, word: &[u8], n: u64)
    ensures { Extends (word.now ++ decimal_field n ++ ascii "\n") text.old text.new }
{
    text.append(word);
    decimal_field(text, n);
    text.append(b"\n");
}

fn refused(text: &mut Text<'_>, refusal: LogRefusal)
    ensures { Extends (refused_text refusal) text.old text.new }
{
    text.append(b"refused");
    decimal_field(text, trap_log::number(Err(refusal)) as u64);
    decimal_field(text, trap_log::section_in(Err(refusal)) as u64);
    text.append(b"\n");
}

// How the log was read.
pub fn read_line(text: &mut Text<'_>, answer: Result<usize, LogRefusal>)
    ensures { Extends (read_text answer) text.old text.new }
{
    match answer {
        Ok(gone) => numbered(text, b"taken", gone as u64),
        Err(refusal) => refused(text, refusal),
    }
}

fn edition_line(text: &mut Text<'_>, edition: u8)
    ensures { Extends (edition_text edition) text.old text.new }
{
    text.append(b"edition");
    edition_field(text, edition as u32);
    text.append(b"\n");
}

// The list of injections, by its number in crate `names`.
const INJECTIONS: u32 = 32;

pub fn injection_line(text: &mut Text<'_>, injection: u8, domain: u8)
    ensures { Extends (injection_text injection domain) text.old text.new }
{
    text.append(b"injection");
    decimal_field(text, injection as u64);
    text.append(b" domain");
    decimal_field(text, domain as u64);
    names::meaning(text, INJECTIONS, injection as u64);
    text.append(b"\n");
}

// An entry that has a line of its own. A trap's registers stand in two entries: `words_line` shows them together.
pub fn entry_line(text: &mut Text<'_>, entry: Option<Entry>)
    ensures { Extends (entry_text entry) text.old text.new }
{
    match entry {
        Some(Entry::Edition(edition)) => edition_line(text, edition),
        Some(Entry::Injection { injection, domain }) => injection_line(text, injection, domain),
        _ => {}
    }
}

// The three registers of a trap.
pub fn words_line(text: &mut Text<'_>, esr: Esr, far: Far, hpfar: Hpfar)
    ensures { Extends (words_text esr far hpfar) text.old text.new }
{
    text.append(b"trap");
    hex_field(text, esr.0);
    hex_field(text, far.0);
    hex_field(text, hpfar.0);
    text.append(b"\n");
}
