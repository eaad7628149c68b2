// A word's fields read, and fields written as a word.
ghost use Rattle.a32_rule.specs.Answer.{Decoding, Encoding};

use super::legality::legal;
use a32_fields::{Fields, fields_at, joined};

// The fields of a word. A word is taken where its own fields are legal and make it again, so that no bit of it is lost. None is number 19: the
// word is none of these forms, or its decoding is UNPREDICTABLE.
pub fn decode(word: u32) -> Option<Fields>
    ensures { Decoding word result }
{
    let bits = word as u64;
    let f = fields_at(bits);
    let again = joined(f);
    if again == bits && legal(f) {
        Some(f)
    } else {
        None
    }
}

// The word of some fields. None is number 19: no such word has these fields.
pub fn encode(f: Fields) -> Option<u32>
    ensures { Encoding f result }
{
    if legal(f) {
        Some(joined(f) as u32)
    } else {
        None
    }
}
