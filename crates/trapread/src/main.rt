// Reads lines from standard input, each an edition and a syndrome word, and writes what reading the word in that edition answers, of a trap
// from AArch32.
//
// Input and lines may have any length: a chunk of the input is held at a time, and of a line what `line` keeps of it. The answers to a
// chunk are written before the next one is read.
#![tactic(auto)]

ghost use Rattle.std.specs.Prelude.{◌≡◌, ◌≤◌, ◌*◌, length, take};
ghost use Rattle.io.specs.Counts.{IsPrefixLen};
ghost use Rattle.text.specs.Append.{Appends, Extends};
ghost use Rattle.trapread.specs.Answer.{field_text, refused_text, answer_text};
ghost use Rattle.trapread.specs.Lines.{line_after, answers_in, end_text, Answered};

use edition::Refusal;
use line::Question;
use record::Origin;
use registers::Esr;
use std::env::Env;
use std::io::{Read, Write};
use stream::Failed;
use text::Text;

// Appends a space and a number.
fn field(text: &mut Text<'_>, n: u32)
    ensures { Extends (field_text n) text.old text.new }
{
    text.append(b" ");
    text.append_decimal(n as u64);
}

fn refused(text: &mut Text<'_>, refusal: Refusal)
    ensures { Extends (refused_text refusal) text.old text.new }
{
    text.append(b"refused");
    field(text, edition::number(refusal));
    field(text, edition::mask(refusal));
    field(text, edition::count(refusal));
    text.append(b"\n");
}

// Appends the answer to a line.
fn answer(text: &mut Text<'_>, line: Option<Question>)
    ensures { Extends (answer_text line) text.old text.new }
{
    let Some(Question { edition, word }) = line else {
        text.append(b"no line\n");
        return;
    };
    match syndrome::read(Origin::AArch32, edition, Esr(word)) {
        Ok(_) => text.append(b"taken\n"),
        Err(refusal) => refused(text, refusal),
    }
}

// A line as far as it has come.
type State = line::State<{ line::LENGTH }>;

// Appends the answers to the lines that end in a chunk, and gives the line that it leaves unended.
fn answers(text: &mut Text<'_>, chunk: &[u8], before: State) -> State
    ensures line_value { result ≡ line_after before chunk.now }
    ensures appends { Extends (answers_in before chunk.now) text.old text.new }
{
    let mut line = before;
    for &byte in chunk {
        if byte == b'\n' {
            answer(text, line::finish(line));
            line = line::start();
        } else {
            line = line::feed(line, byte);
        }
    }
    line
}

// What a chunk of the input gave: the line that it leaves unended, the end of the answers to those that it ends, and how many bytes were
// read. A read that fails has no byte, and ends no input.
#[derive(Clone, Copy)]
struct Turn {
    line: State,
    end: usize,
    read: Result<usize, Failed>,
}

// Reads a chunk and puts its answers into a buffer with room for all of them: no line is shorter than its newline, and no answer longer
// than 128 bytes. No contract can say which bytes were read.
fn next_chunk<R: Read, E: Write>(input: &mut R, errors: &mut E, out: &mut [u8], line: State) -> Turn
    requires { 128 * 512 ≤ length out.old }
    ensures answered { Answered line result.line (take result.end out.new) }
    ensures prefix_len { IsPrefixLen result.end out.new }
{
    let mut chunk = [0u8; 512];
    let read = stream::read(input, errors, b"standard input", &mut chunk);
    let mut text = Text::new(out);
    let after = answers(&mut text, &chunk[..read.unwrap_or(0)], line);
    Turn {
        line: after,
        end: text.end,
        read,
    }
}

// Appends the answer to the last line to an empty text. It may lack its newline, but what follows the last newline is no line where it is
// empty, nor is what was read before a read or a write that failed.
fn last(out: &mut [u8], line: State, ended: bool) -> usize
    ensures appends { Appends (end_text ended line) out.old 0 out.new result }
    ensures prefix_len { IsPrefixLen result out.new }
{
    let mut text = Text::new(out);
    if ended && line.count != 0 {
        answer(&mut text, line::finish(line));
    }
    text.end
}

// Answers the lines of standard input. No contract can say what was written. A proved loop has to end, and nothing says that the input
// does: it counts up to a number that no run reaches.
fn answer_input<R: Read, W: Write, E: Write>(
    input: &mut R,
    output: &mut W,
    errors: &mut E,
) -> Result<(), Failed> {
    let mut space = io::large_buffer();
    let out: &mut [u8] = &mut space;
    let mut line = line::start();
    let mut ended = false;
    for _ in 0..u64::MAX {
        let turn = next_chunk(input, errors, out, line);
        line = turn.line;
        ended = turn.read == Ok(0);
        stream::write(output, errors, &out[..turn.end])?;
        if turn.read.unwrap_or(0) == 0 {
            break;
        }
    }
    let end = last(out, line, ended);
    stream::write(output, errors, &out[..end])
}

const HELP: [u8; 441] = *b"\
    Reads lines from standard input, each an edition and a syndrome word of a trap from AArch32,\n\
    and writes what reading the word in that edition answers: `taken`, or `refused` with the\n\
    number, the mask of the editions that have the word and how many they are. `explain` says it\n\
    in words.\n\
    \n\
    The edition is one hex digit: RAS counts 1, LPA2 counts 2, HAFDBS counts 4, LPA counts 8. A\n\
    space and 16 hex digits follow. Every other line is `no line`.\n\
    ";

fn help<W: Write, E: Write>(output: &mut W, errors: &mut E) -> Result<(), Failed> {
    stream::write(output, errors, &HELP)
}

fn usage<E: Write>(errors: &mut E) -> Result<(), Failed> {
    let _ = errors.write_all(
        b"usage: trapread reads lines from standard input, and takes no word but --help\n",
    );
    Err(Failed)
}

// Whether the first argument asks for help. The program takes no other.
fn asks_help<E: Env>(env: &E) -> bool {
    let mut word = io::buffer();
    let n = stream::argument(env, 1, &mut word);
    &word[..n] == b"--help".as_slice()
}

// What the arguments ask for.
fn run(rt: &HostRuntime) -> Result<(), Failed> {
    let mut output = rt.stdout();
    let mut errors = rt.stderr();
    let count = stream::argument_count(rt);
    if count < 2 {
        return answer_input(&mut rt.stdin(), &mut output, &mut errors);
    }
    if (count == 2) & asks_help(rt) {
        return help(&mut output, &mut errors);
    }
    usage(&mut errors)
}

// A failure was told where it came, and the program's status is 0 all the same.
fn main(rt: HostRuntime) {
    let _ = run(&rt);
}
