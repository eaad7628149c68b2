// What is said of a word of the short form, and its record as lines of text, as crates explain_text and record_text have them of the long
// form.
#![tactic(auto)]

ghost use Rattle.std.specs.Prelude.{◌<◌, ◌≡◌, ◌++◌, true};
ghost use Rattle.refusal_text.specs.Refusal.{refusal_text};
ghost use Rattle.text.specs.Append.{Extends};
ghost use Rattle.text.specs.Ascii.{ascii};
ghost use Rattle.short_text.specs.Inner.{shape_of, word_text, others_lines, read_lines};
ghost use Rattle.short_text.specs.Said.{short_said};

use edition::Refusal;
use registers::Hsr;
use short_record::Record;
use text::Text;

// The shape of a word by its class and fault code.
fn shape(class: u32, code: u32) -> u32
    requires { class < 64 }
    ensures { result ≡ shape_of class code }
{
    if (class == 0x24) & (code == 0x11) {
        128
    } else {
        64 + class
    }
}

// The fields of a word, by its class.
fn word_lines(text: &mut Text<'_>, hsr: Hsr)
    ensures { Extends (word_text hsr.0) text.old text.new }
{
    let word = hsr.0 as u64;
    let n = shape(bits::field32(word, 31, 26), bits::field32(word, 5, 0));
    field_text::lines(text, n as usize, word);
}

// A word that is taken.
fn taken(text: &mut Text<'_>, hsr: Hsr)
    ensures { Extends (ascii "taken\n" ++ word_text hsr.0) text.old text.new }
{
    text.append(b"taken\n");
    word_lines(text, hsr);
}

// The fields of a word that the other edition has, and the rule that one breaks which none has.
fn others(text: &mut Text<'_>, hsr: Hsr, refusal: Refusal)
    ensures { Extends (others_lines hsr.0 refusal) text.old text.new }
{
    match refusal {
        Refusal::OtherEditions(_, _) => word_lines(text, hsr),
        Refusal::NoEdition => refusal_text::why_line(text, short_reason::why(hsr)),
        _ => {}
    }
}

// A word that is refused.
fn refused(text: &mut Text<'_>, hsr: Hsr, refusal: Refusal)
    ensures { Extends (refusal_text true refusal ++ others_lines hsr.0 refusal) text.old text.new }
{
    refusal_text::refusal_lines(text, true, refusal);
    others(text, hsr, refusal);
}

fn answer(text: &mut Text<'_>, hsr: Hsr, read: Result<Record, Refusal>)
    ensures { Extends (read_lines hsr.0 read) text.old text.new }
{
    match read {
        Ok(_) => taken(text, hsr),
        Err(refusal) => refused(text, hsr, refusal),
    }
}

// What a short edition makes of a word.
pub fn said(text: &mut Text<'_>, edition: u32, hsr: Hsr)
    ensures { Extends (short_said edition hsr) text.old text.new }
{
    answer(text, hsr, short::read(edition, hsr));
}
