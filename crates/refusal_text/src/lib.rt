// A refusal of a word as lines appended to a text.
#![tactic(auto)]

ghost use Rattle.std.specs.Prelude.{true, false, cond, [], ◌++◌};
ghost use Rattle.bits.specs.Field.{bit_of};
ghost use Rattle.text.specs.Append.{Extends};
ghost use Rattle.text.specs.Ascii.{ascii};
ghost use Rattle.text.specs.Numeral.{hex_text};
ghost use Rattle.edition.specs.declared.Refusal.{Refusal};
ghost use Rattle.refusal_text.specs.Feature.{editions_of, asked_by, asked_lines};
ghost use Rattle.refusal_text.specs.Refusal.{editions_below, editions_text, refusal_text};
ghost use Rattle.refusal_text.specs.Why.{why_text};

use edition::Refusal;
use text::Text;

// An edition that is in a mask, as it is typed.
fn edition_in(text: &mut Text<'_>, mask: u32, edition: u32)
    ensures { Extends (cond (bit_of mask edition) (ascii " " ++ hex_text edition) []) text.old text.new }
{
    if bits::bit(mask as u64, edition) {
        text.append(b" ");
        text.append_hex(edition as u64);
    }
}

// The editions below n that are in a mask.
fn editions_below(text: &mut Text<'_>, n: u32, mask: u32)
    ensures { Extends (editions_below n mask) text.old text.new }
{
    for edition in 0..n {
        edition_in(text, mask, edition);
    }
}

fn editions_line(text: &mut Text<'_>, n: u32, mask: u32)
    ensures { Extends (editions_text n mask) text.old text.new }
{
    text.append(b"editions");
    editions_below(text, n, mask);
    text.append(b"\n");
}

// What the editions of a mask ask of a board, in the long form.
fn long_asked(text: &mut Text<'_>, mask: u32)
    ensures { Extends (asked_lines (asked_by false mask)) text.old text.new }
{
    match mask {
        0xCCCC => text.append(b"needs LPA2\n"),
        0x5555 => text.append(b"not with RAS\n"),
        0x4444 => text.append(b"needs LPA2\nnot with RAS\n"),
        0xF0F0 => text.append(b"needs HAFDBS\n"),
        0xAAAA => text.append(b"needs RAS\n"),
        _ => {}
    }
}

// And in the short form.
fn short_asked(text: &mut Text<'_>, mask: u32)
    ensures { Extends (asked_lines (asked_by true mask)) text.old text.new }
{
    match mask {
        1 => text.append(b"not with RAS\n"),
        2 => text.append(b"needs RAS\n"),
        _ => {}
    }
}

// The editions of a mask: what they ask of a board, and which they are.
fn others(text: &mut Text<'_>, short: bool, mask: u32)
    ensures { Extends (asked_lines (asked_by short mask) ++ editions_text (editions_of short) mask) text.old text.new }
{
    if short {
        short_asked(text, mask);
        editions_line(text, 2, mask);
    } else {
        long_asked(text, mask);
        editions_line(text, 16, mask);
    }
}

// One text in the short form, and another in the long one.
fn by_form(text: &mut Text<'_>, short: bool, in_short: &[u8], in_long: &[u8])
    ensures { Extends (cond short in_short.now in_long.now) text.old text.new }
{
    if short {
        text.append(in_short);
    } else {
        text.append(in_long);
    }
}

// Why a word is refused, in the short form or in the long one, of which the words are from AArch32.
pub fn refusal_lines(text: &mut Text<'_>, short: bool, refusal: Refusal)
    ensures { Extends (refusal_text short refusal) text.old text.new }
{
    match refusal {
        Refusal::UnknownEdition => by_form(
            text,
            short,
            b"refused 1: the edition is above 1\n",
            b"refused 1: the edition is above 15\n",
        ),
        Refusal::UpperHalf => text.append(b"refused 2: bits 63:32 of the syndrome are not zero\n"),
        Refusal::UnknownClass => by_form(
            text,
            short,
            b"refused 3: EC 31:26 is no class of the build in the short form\n",
            b"refused 3: EC 31:26 is no class of the build from AArch32\n",
        ),
        Refusal::ShortInstruction => { text.append(b"refused 4: IL 25 is 0 where it must be 1\n") }
        Refusal::NoEdition => text.append(b"refused 5: no edition has it\n"),
        Refusal::OtherEditions(mask, _) => {
            text.append(b"refused 6: this edition doesn't have it, others do\n");
            others(text, short, mask);
        }
    }
}

// The list of reasons, by its number in crate `names`.
const REASONS: u32 = 31;

// The rule that a word breaks which no edition has, by its number.
pub fn why_line(text: &mut Text<'_>, rule: u32)
    ensures { Extends (why_text rule) text.old text.new }
{
    text.append(b"why");
    names::meaning(text, REASONS, rule as u64);
    text.append(b"\n");
}
