// The lines that only a log has which is cut short.
ghost use Rattle.text.specs.Append.{Extends};
ghost use Rattle.log_text.specs.Cut.{syndrome_text, before_text, cut_text};

use super::{decimal_field, hex_field};
use log_cut::Cut;
use registers::Esr;
use text::Text;

// A syndrome whose address doesn't precede the cut.
pub fn syndrome_line(text: &mut Text<'_>, esr: Esr)
    ensures { Extends (syndrome_text esr) text.old text.new }
{
    text.append(b"syndrome");
    hex_field(text, esr.0);
    text.append(b"\n");
}

// How much of a section precedes the cut.
fn preceding(text: &mut Text<'_>, cut: Cut)
    ensures { Extends (before_text cut) text.old text.new }
{
    match cut {
        Cut::Count { bytes } => {
            decimal_field(text, bytes as u64);
            text.append(b" of 4 bytes of its count");
        }
        Cut::Entries {
            whole,
            count,
            bytes,
        } => {
            decimal_field(text, whole as u64);
            text.append(b" of");
            decimal_field(text, count as u64);
            text.append(b" entries in");
            decimal_field(text, bytes as u64);
            text.append(b" bytes");
        }
    }
}

// Where a section is cut.
pub fn cut_line(text: &mut Text<'_>, section: u32, cut: Cut)
    ensures { Extends (cut_text section cut) text.old text.new }
{
    text.append(b"cut in section");
    decimal_field(text, section as u64);
    text.append(b":");
    preceding(text, cut);
    text.append(b"\n");
}
