// A record of the long form as lines of text: each field's name, bits and value, and what the manual says of the value. The lines are taken
// from the record's word (`word_said_lem`, proofs/Record.antt).
#![tactic(auto)]

ghost use Rattle.text.specs.Append.{Extends};
ghost use Rattle.record_text.specs.Inner.{word_text};

use registers::Esr;
use text::Text;

// The fields of a word, by its class.
pub fn word_lines(text: &mut Text<'_>, esr: Esr)
    ensures { Extends (word_text esr.0) text.old text.new }
{
    let word = esr.0;
    let class = bits::field32(word, 31, 26);
    field_text::lines(text, class as usize, word);
}
