// A line of the program explain: an edition and a syndrome word, as trapread has it; the same with FAR and HPFAR behind it; or, after the
// word `short`, a short edition and a word of 8 digits.
//
// `parse` reads a whole line. `finish` reads one of any length, which `line::start` and `line::feed` took a byte at a time.
#![tactic(auto)]

ghost use Rattle.std.specs.Prelude.{◌≡◌, length};
ghost use Rattle.line.specs.Line.{line_of};
ghost use Rattle.question.specs.Question.{word_from, trap_of, says_short, short_of, question_of};
ghost use Rattle.question.specs.Feed.{ended};

use line::State;

// What a line asks.
#[derive(Clone, Copy)]
pub enum Question {
    Word {
        edition: u32,
        esr: u64,
    },
    Trap {
        edition: u32,
        esr: u64,
        far: u64,
        hpfar: u64,
    },
    Short {
        edition: u32,
        hsr: u32,
    },
}

fn word(line: &[u8]) -> Option<Question>
    ensures { result ≡ word_from (line_of line.now) }
{
    let line::Question { edition, word } = line::parse(line)?;
    Some(Question::Word { edition, esr: word })
}

fn trap(line: &[u8]) -> Option<Question>
    requires { length line.now ≡ 52 }
    ensures { result ≡ trap_of line.now }
{
    if line[18] != b' ' {
        return None;
    }
    if line[35] != b' ' {
        return None;
    }
    let line::Question { edition, word } = line::parse(&line[0..18])?;
    let far = line::number(&line[19..35])?;
    let hpfar = line::number(&line[36..52])?;
    Some(Question::Trap {
        edition,
        esr: word,
        far,
        hpfar,
    })
}

// Whether a line begins as one of the short form does.
fn says_short(line: &[u8]) -> bool
    requires { length line.now ≡ 16 }
    ensures { result ≡ says_short line.now }
{
    line.starts_with(b"short ") & (line[7] == b' ')
}

fn short(line: &[u8]) -> Option<Question>
    requires { length line.now ≡ 16 }
    ensures { result ≡ short_of line.now }
{
    if !says_short(line) {
        return None;
    }
    let edition = text::hex_digit(line[6])?;
    let hsr = line::number(&line[8..])?;
    Some(Question::Short {
        edition,
        hsr: (hsr % 0x1_0000_0000) as u32,
    })
}

// Reads a line, without its newline.
#[tactic(auto, unfolding(crate::specs::Question::question_of))]
pub fn parse(line: &[u8]) -> Option<Question>
    ensures { result ≡ question_of line.now }
{
    match line.len() {
        18 => word(line),
        52 => trap(line),
        16 => short(line),
        _ => None,
    }
}

// The longest line.
pub const LENGTH: usize = 52;

// What the line asks that came.
pub fn finish(state: State<LENGTH>) -> Option<Question>
    ensures { result ≡ ended state }
{
    if LENGTH < state.count {
        return None;
    }
    parse(&state.bytes[..state.count])
}
