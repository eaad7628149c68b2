// Names of the Arm manual as text: what a field is called, and what its values mean, appended to a text. Labels and lists of values go
// by their numbers in the tables of specs/Table.antt.
#![tactic(auto)]

ghost use Rattle.text.specs.Append.{Extends};
ghost use Rattle.names.specs.Name.{meaning_of};
ghost use Rattle.names.specs.Table.{label_at, values_at};

mod table;

use text::Text;

// A field's name.
pub fn label(text: &mut Text<'_>, n: u64)
    ensures { Extends (label_at n) text.old text.new }
{
    table::entry(text, 0, n);
}

// Kept: a list goes by its number, as `values_at` and `label_at` of specs/Table.antt have it.
// What a list says of a value.
pub fn meaning(text: &mut Text<'_>, list: u32, value: u64)
    ensures { Extends (meaning_of (values_at list) value) text.old text.new }
{
    table::entry(text, list as usize + 1, value);
}
