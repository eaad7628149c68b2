// Says in words what an edition makes of a trap from AArch32. A question is a line: an edition and a syndrome word, as trapread has them;
// the same with FAR and HPFAR behind it; or, after the word `short`, a short edition and a word of the short form. The program's arguments
// are one line, and without any it reads lines from standard input.
//
// Input and lines may have any length: a chunk of the input is held at a time, and of a line what `question` keeps of it. The answers to a
// chunk are written before the next one is read.
#![tactic(auto)]

ghost use Rattle.std.specs.Prelude.{◌≡◌, ◌≤◌, ◌*◌, length, take};
ghost use Rattle.io.specs.Counts.{IsPrefixLen};
ghost use Rattle.text.specs.Append.{Appends, Extends};
ghost use Rattle.question.specs.Question.{question_of};
ghost use Rattle.explain.specs.Answer.{answer_text};
ghost use Rattle.explain.specs.Lines.{line_after, answers_in, end_text, Answered};
ghost use Rattle.explain.specs.Arguments.{Lengthened};

use question::Question;
use registers::{Esr, Far, Hpfar, Hsr};
use std::env::Env;
use std::io::{Read, Write};
use stream::Failed;
use text::Text;

// Appends the answer to a question.
fn answer(text: &mut Text<'_>, question: Option<Question>)
    ensures { Extends (answer_text question) text.old text.new }
{
    match question {
        Some(Question::Word { edition, esr }) => explain_text::word_said(text, edition, Esr(esr)),
        Some(
            Question::Trap {
                edition,
                esr,
                far,
                hpfar,
            },
        ) => explain_text::trap_said(text, edition, Esr(esr), Far(far), Hpfar(hpfar)),
        Some(Question::Short { edition, hsr }) => short_text::said(text, edition, Hsr(hsr)),
        None => text.append(b"no line\n"),
    }
}

// A line as far as it has come.
type State = line::State<{ question::LENGTH }>;

// Appends the answers to the lines that end in a chunk, and gives the line that it leaves unended.
fn answers(text: &mut Text<'_>, chunk: &[u8], before: State) -> State
    ensures line_value { result ≡ line_after before chunk.now }
    ensures appends { Extends (answers_in before chunk.now) text.old text.new }
{
    let mut line = before;
    for &byte in chunk {
        if byte == b'\n' {
            answer(text, question::finish(line));
            line = line::start();
        } else {
            line = line::feed(line, byte);
        }
    }
    line
}

// What a chunk of the input gave: the line that it leaves unended, the end of the answers to those that it ends, and how many bytes were
// read. A read that fails has no byte, and ends no input.
#[derive(Clone, Copy)]
struct Turn {
    line: State,
    end: usize,
    read: Result<usize, Failed>,
}

// Reads a chunk and puts its answers into a buffer with room for all of them: no line is shorter than its newline, and no answer longer
// than 4096 bytes. No contract can say which bytes were read.
fn next_chunk<R: Read, E: Write>(input: &mut R, errors: &mut E, out: &mut [u8], line: State) -> Turn
    requires { 4096 * 16 ≤ length out.old }
    ensures answered { Answered line result.line (take result.end out.new) }
    ensures prefix_len { IsPrefixLen result.end out.new }
{
    let mut chunk = [0u8; 16];
    let read = stream::read(input, errors, b"standard input", &mut chunk);
    let mut text = Text::new(out);
    let after = answers(&mut text, &chunk[..read.unwrap_or(0)], line);
    Turn {
        line: after,
        end: text.end,
        read,
    }
}

// Appends the answer to the last line to an empty text. It may lack its newline, but what follows the last newline is no line where it is
// empty, nor is what was read before a read or a write that failed.
fn last(out: &mut [u8], line: State, ended: bool) -> usize
    ensures appends { Appends (end_text ended line) out.old 0 out.new result }
    ensures prefix_len { IsPrefixLen result out.new }
{
    let mut text = Text::new(out);
    if ended && line.count != 0 {
        answer(&mut text, question::finish(line));
    }
    text.end
}

// Puts the answer to a whole line into a buffer that has room for any answer.
fn answer_line(out: &mut [u8], line: &[u8]) -> usize
    requires { 4096 ≤ length out.old }
    ensures out_after { take result out.new ≡ answer_text (question_of line.now) }
    ensures prefix_len { IsPrefixLen result out.new }
{
    let mut text = Text::new(out);
    answer(&mut text, question::parse(line));
    text.end
}

// Answers the lines of standard input. No contract can say what was written. A proved loop has to end, and nothing says that the input
// does: it counts up to a number that no run reaches.
fn answer_input<R: Read, W: Write, E: Write>(
    input: &mut R,
    output: &mut W,
    errors: &mut E,
) -> Result<(), Failed> {
    let mut space = io::large_buffer();
    let out: &mut [u8] = &mut space;
    let mut line = line::start();
    let mut ended = false;
    for _ in 0..u64::MAX {
        let turn = next_chunk(input, errors, out, line);
        line = turn.line;
        ended = turn.read == Ok(0);
        stream::write(output, errors, &out[..turn.end])?;
        if turn.read.unwrap_or(0) == 0 {
            break;
        }
    }
    let end = last(out, line, ended);
    stream::write(output, errors, &out[..end])
}

// Appends an argument to a line, after a space where it isn't the first.
fn add_argument<E: Env>(env: &E, line: &mut Text<'_>, i: usize)
    ensures { Lengthened line.old line.new }
{
    let mut one = io::buffer();
    let n = stream::argument(env, i, &mut one);
    if i != 1 {
        line.append(b" ");
    }
    line.append(&one[..n]);
}

// The arguments as one line. What has no room is left out, and what is left is no line.
fn arguments<E: Env>(env: &E, line: &mut [u8], count: usize) -> usize
    ensures { IsPrefixLen result line.new }
{
    let mut text = Text::new(line);
    for i in 1..count {
        add_argument(env, &mut text, i);
    }
    text.end
}

const HELP: [u8; 562] = *b"\
    Says in words what an edition makes of a trap from AArch32.\n\
    \n\
    explain E ESR            an edition and a syndrome word\n\
    explain E ESR FAR HPFAR  an edition and the three registers of a trap\n\
    explain short E HSR      a short edition, 0 or 1, and a word of the short form\n\
    explain                  lines of standard input, each as the arguments above\n\
    \n\
    E is one hex digit: RAS counts 1, LPA2 counts 2, HAFDBS counts 4, LPA counts 8. ESR, FAR\n\
    and HPFAR have 16 hex digits each and HSR has 8, none with 0x. Words are separated by one\n\
    space. Every other line is `no line`.\n\
    ";

fn help<W: Write, E: Write>(output: &mut W, errors: &mut E) -> Result<(), Failed> {
    stream::write(output, errors, &HELP)
}

// Answers the question that the arguments are. No contract can say what was written.
fn answer_arguments<A: Env, W: Write, E: Write>(
    env: &A,
    output: &mut W,
    errors: &mut E,
    count: usize,
) -> Result<(), Failed> {
    let mut line = io::buffer();
    let end = arguments(env, &mut line, count);
    if &line[..end] == b"--help".as_slice() {
        return help(output, errors);
    }
    let mut out = io::buffer();
    let told = answer_line(&mut out, &line[..end]);
    stream::write(output, errors, &out[..told])
}

// What the arguments ask for.
fn run(rt: &HostRuntime) -> Result<(), Failed> {
    let mut output = rt.stdout();
    let mut errors = rt.stderr();
    let count = stream::argument_count(rt);
    if count < 2 {
        answer_input(&mut rt.stdin(), &mut output, &mut errors)
    } else {
        answer_arguments(rt, &mut output, &mut errors, count)
    }
}

// A failure was told where it came, and the program's status is 0 all the same.
fn main(rt: HostRuntime) {
    let _ = run(&rt);
}
