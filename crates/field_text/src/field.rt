// A field as a line.
ghost use Rattle.std.specs.Prelude.{List};
ghost use Rattle.bits.specs.Field.{field_of};
ghost use Rattle.names.specs.Name.{Name};
ghost use Rattle.names.specs.Table.{label_at, values_at};
ghost use Rattle.text.specs.Append.{Extends};
ghost use Rattle.field_text.specs.Line.{bits_text, line_text};
ghost use Rattle.field_text.specs.Rows.{name_of};

use text::Text;

// Bits high:low, or one bit.
fn bits_text(text: &mut Text<'_>, high: u32, low: u32)
    ensures { Extends (bits_text high low) text.old text.new }
{
    text.append_decimal(high as u64);
    if high != low {
        text.append(b":");
        text.append_decimal(low as u64);
    }
}

// The bits of a word under a label, with what a list says of their value.
pub(crate) fn field_line(text: &mut Text<'_>, word: u64, label: u64, high: u32, low: u32, list: u32)
    ensures { Extends (line_text (name_of label (values_at list)) high low (field_of word high low)) text.old text.new }
{
    let value = bits::field(word, high, low);
    names::label(text, label);
    text.append(b" ");
    bits_text(text, high, low);
    text.append(b" = 0x");
    text.append_hex(value);
    names::meaning(text, list, value);
    text.append(b"\n");
}
