// A syndrome word.
ghost use Rattle.std.specs.Prelude.{◌++◌};
ghost use Rattle.text.specs.Append.{Extends};
ghost use Rattle.text.specs.Ascii.{ascii};
ghost use Rattle.record_text.specs.Inner.{word_text};
ghost use Rattle.explain_text.specs.Word.{word_said};
ghost use Rattle.explain_text.specs.Inner.{others_lines, refused_lines, read_lines};

use edition::Refusal;
use record::{Origin, Record};
use registers::Esr;
use text::Text;

// A word that is taken.
pub(crate) fn taken(text: &mut Text<'_>, esr: Esr)
    ensures { Extends (ascii "taken\n" ++ word_text esr.0) text.old text.new }
{
    text.append(b"taken\n");
    record_text::word_lines(text, esr);
}

// The fields of a word that other editions have, and the rule that one breaks which none has.
fn others(text: &mut Text<'_>, esr: Esr, refusal: Refusal)
    ensures { Extends (others_lines esr.0 refusal) text.old text.new }
{
    match refusal {
        Refusal::OtherEditions(_, _) => record_text::word_lines(text, esr),
        Refusal::NoEdition => refusal_text::why_line(text, reason::why(esr)),
        _ => {}
    }
}

// A word that is refused.
pub(crate) fn refused(text: &mut Text<'_>, esr: Esr, refusal: Refusal)
    ensures { Extends (refused_lines esr.0 refusal) text.old text.new }
{
    refusal_text::refusal_lines(text, false, refusal);
    others(text, esr, refusal);
}

fn answer(text: &mut Text<'_>, esr: Esr, read: Result<Record, Refusal>)
    ensures { Extends (read_lines esr.0 read) text.old text.new }
{
    match read {
        Ok(_) => taken(text, esr),
        Err(refusal) => refused(text, esr, refusal),
    }
}

// What an edition makes of a word.
pub fn word_said(text: &mut Text<'_>, edition: u32, esr: Esr)
    ensures { Extends (word_said edition esr) text.old text.new }
{
    answer(text, esr, syndrome::read(Origin::AArch32, edition, esr));
}
