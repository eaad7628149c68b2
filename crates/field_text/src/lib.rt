// A word's fields as lines of text, by the word's shape: each field's name, bits and value, and what the manual says of the value.
#![tactic(auto)]

ghost use Rattle.std.specs.Prelude.{◌+◌, ◌≤◌};
ghost use Rattle.text.specs.Append.{Extends};
ghost use Rattle.field_text.specs.Rows.{rows_from, rows_text, shape_text};

mod field;
mod shape;
mod test;

use text::Text;

// n rows from the first on, over a word.
fn rows_lines(text: &mut Text<'_>, word: u64, first: usize, n: usize)
    requires { first + n ≤ 165 }
    ensures { Extends (rows_text word (rows_from word first n)) text.old text.new }
{
    for i in first..first + n {
        shape::row_line(text, word, i);
    }
}

// The lines of a shape over a word, of which a shape that there is none of has none.
pub fn lines(text: &mut Text<'_>, shape: usize, word: u64)
    ensures { Extends (shape_text shape word) text.old text.new }
{
    if shape < shape::SHAPES {
        rows_lines(text, word, shape::first(shape), shape::count(shape));
    }
}
