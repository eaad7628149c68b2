// Rows read a byte at a time, by programs from standard input: a word of small letters, and hexadecimal numbers with one space before each.
ghost use Rattle.std.specs.Prelude.{◌≡◌, ◌≤◌, max, IfSome};

use super::row::{Row, with_letter};
use std::io::Read;

// A line as far as it has come.
#[derive(Clone, Copy)]
struct Line {
    // The word, and whether it has ended.
    word: u64,
    named: bool,
    // The numbers that have ended.
    count: usize,
    numbers: [u64; 256],
    // The number that has not ended, where it has a digit.
    number: Option<u64>,
    // Whether all so far is a row's beginning.
    good: bool,
}

fn empty_line() -> Line
    ensures { result.count ≡ 0 }
{
    Line {
        word: 0,
        named: false,
        count: 0,
        numbers: [0; 256],
        number: None,
        good: true,
    }
}

fn feed_word(line: Line, byte: u8) -> Line
    ensures { result.count ≤ max line.count 256 }
{
    let mut next = line;
    match byte {
        b'a'..=b'z' => next.word = with_letter(next.word, byte),
        b' ' => next.named = true,
        _ => next.good = false,
    }
    next
}

// Ends a number, which needs a digit and a place.
fn end_number(line: Line) -> Line
    ensures { result.count ≤ max line.count 256 }
{
    let mut next = line;
    let count = next.count;
    next.good = next.good & line.number.is_some();
    next.number = None;
    if count < 256 {
        next.numbers[count] = line.number.unwrap_or(0);
        next.count = count + 1;
    } else {
        next.good = false;
    }
    next
}

// One digit more. A number of more than 64 bits is none.
fn feed_digit(line: Line, digit: u32) -> Line
    ensures { result.count ≤ max line.count 256 }
{
    let mut next = line;
    let value = next.number.unwrap_or(0);
    if value < 0x1000_0000_0000_0000 {
        next.number = Some(value * 16 + (digit % 16) as u64);
    } else {
        next.good = false;
    }
    next
}

fn feed_number(line: Line, byte: u8) -> Line
    ensures { result.count ≤ max line.count 256 }
{
    if byte == b' ' {
        return end_number(line);
    }
    match text::hex_digit(byte) {
        Some(digit) => feed_digit(line, digit),
        None => {
            let mut next = line;
            next.good = false;
            next
        }
    }
}

// One byte more of the line.
fn feed(line: Line, byte: u8) -> Line
    ensures { result.count ≤ max line.count 256 }
{
    if line.named {
        feed_number(line, byte)
    } else {
        feed_word(line, byte)
    }
}

// A line that has ended, and with it its last number: a word alone is no row.
fn row_of(line: Line) -> Row
    ensures { result.count ≤ max line.count 256 }
{
    let whole = end_number(line);
    Row {
        word: if whole.good { whole.word } else { 0 },
        count: whole.count,
        numbers: whole.numbers,
    }
}

// The rows of an input, which is read by way of a chunk: the bytes from one place to another are still to come.
#[derive(Clone, Copy)]
pub struct Rows {
    chunk: [u8; 512],
    from: usize,
    to: usize,
}

impl Rows {
    // Nothing has been read.
    pub fn new() -> Rows
        ensures { result.from ≡ result.to }
    {
        Rows {
            chunk: [0; 512],
            from: 0,
            to: 0,
        }
    }

    // The next byte of the input. A read that fails ends it.
    fn next_byte<R: Read>(&mut self, source: &mut R) -> Option<u8> {
        if self.from >= self.to {
            self.from = 0;
            self.to = source.read(&mut self.chunk).unwrap_or(0);
        }
        let bytes = self.chunk.get(self.from..self.to)?;
        let byte = *bytes.first()?;
        self.from += 1;
        Some(byte)
    }

    // The next row, or that there is no line any more. A last line may lack its newline, but what follows the last newline is no line where it
    // is empty.
    //
    // A proved loop has to end, and nothing says that a line does: it counts up to a number that no run reaches.
    pub fn next_row<R: Read>(&mut self, source: &mut R) -> Option<Row>
        ensures { IfSome result (λ row. row.count ≤ 256) }
    {
        let mut line = empty_line();
        let mut begun = false;
        for _ in 0..u64::MAX {
            match self.next_byte(source) {
                Some(b'\n') => return Some(row_of(line)),
                Some(byte) => {
                    line = feed(line, byte);
                    begun = true;
                }
                None => break,
            }
        }
        if begun { Some(row_of(line)) } else { None }
    }
}
