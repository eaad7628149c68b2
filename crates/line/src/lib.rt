// A line of the program's input: one hexadecimal digit for the edition, a space, and 16 hexadecimal digits of either case for the word.
//
// `parse` reads a whole line. `start`, `feed` and `finish` read one of any length, a byte at a time.
#![tactic(auto)]

ghost use Rattle.std.specs.Prelude.{◌≡◌, ◌≤◌, length};
ghost use Rattle.line.specs.Line.{word_of, digits_word, line_of};
ghost use Rattle.line.specs.Feed.{started, fed, ended};

// What a line asks.
#[derive(Clone, Copy)]
pub struct Question {
    pub edition: u32,
    pub word: u64,
}

// The edition, a space and the word.
pub const LENGTH: usize = 18;

// The number that at most 16 hexadecimal digits make.
fn hex_word(digits: &[u8]) -> Option<u64>
    requires { length digits.now ≤ 16 }
    ensures { result ≡ word_of digits.now }
{
    let mut value: u64 = 0;
    for &byte in digits {
        let digit = text::hex_digit(byte)?;
        value = value * 16 + digit as u64;
    }
    Some(value)
}

// The word of at most 16 hexadecimal digits. More are none.
pub fn number(digits: &[u8]) -> Option<u64>
    ensures { result ≡ digits_word digits.now }
{
    if digits.len() <= 16 {
        hex_word(digits)
    } else {
        None
    }
}

// Reads a line, without its newline.
#[tactic(auto, unfolding(crate::specs::Line::line_of))]
pub fn parse(line: &[u8]) -> Option<Question>
    ensures { result ≡ line_of line.now }
{
    if line.len() != LENGTH {
        return None;
    }
    if line[1] != b' ' {
        return None;
    }
    let edition = text::hex_digit(line[0])?;
    let word = hex_word(&line[2..])?;
    Some(Question { edition, word })
}

// A line as far as it has come: its first bytes, and how many came, counted no further than one past the longest line, of N bytes.
// Kept: fixed memory, and a count that goes one past the room, which no slice has.
#[derive(Clone, Copy)]
pub struct State<const N: usize> {
    pub bytes: [u8; N],
    pub count: usize,
}

pub fn start<const N: usize>() -> State<N>
    ensures { result ≡ started N }
{
    State {
        bytes: [0; N],
        count: 0,
    }
}

// One more byte of the line. A line that is too long stays so, whatever it goes on with.
pub fn feed<const N: usize>(state: State<N>, byte: u8) -> State<N>
    ensures { result ≡ fed N state.entry byte }
{
    let mut next = state;
    let count = next.count;
    if count < N {
        next.bytes[count] = byte;
        next.count = count + 1;
    } else {
        next.count = N + 1;
    }
    next
}

// What the line says that came.
pub fn finish(state: State<LENGTH>) -> Option<Question>
    ensures { result ≡ ended state }
{
    if state.count == LENGTH {
        parse(&state.bytes)
    } else {
        None
    }
}
