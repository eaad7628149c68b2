// Bytes read from a file and written to standard output. A call that a signal interrupts is made again, and one that fails is told on
// standard error, in the system's words. And a program's arguments.
//
// The file, standard output and standard error are a reader and two writers, which the caller holds. Of those of the system no contract can
// say which bytes were read or written, or why a call failed.
#![tactic(auto)]

ghost use Rattle.std.specs.Prelude.{◌≡◌, IfOk, IfErr, length};
ghost use Rattle.io.specs.Counts.{IsPrefixLen};
ghost use Rattle.stream.specs.Piece.{piece_of};

use std::env::{Env, FillError};
use std::io::{self, Error, ErrorKind, Read, Write};

// That a call failed, which was told.
#[derive(Clone, Copy, PartialEq, Eq)]
pub struct Failed;

// The same of a read, and how many bytes had come before it.
#[derive(Clone, Copy, PartialEq, Eq)]
pub struct Stopped {
    pub count: usize,
}

impl From<Stopped> for Failed {
    fn from(_stopped: Stopped) -> Failed {
        Failed
    }
}

// What the answer to a read says: how many bytes were read, none where the input has ended.
fn piece_of(got: io::Result<usize>, space: &[u8]) -> Result<usize, Failed>
    ensures value { result ≡ piece_of got (length space.now) }
    ensures prefix_len { IfOk result (λ n. IsPrefixLen n space.now) }
{
    match got {
        Ok(n) => Ok(n.min(space.len())),
        Err(_) => Err(Failed),
    }
}

// Whether a call that gave this answer is to be made again.
fn interrupted(got: &io::Result<usize>) -> bool {
    matches!(got, Err(error) if error.kind() == ErrorKind::Interrupted)
}

// Puts the library's text of an error at the start of a space, and gives its length.
fn put_error(space: &mut [u8], error: Error) -> usize
    ensures { IsPrefixLen result space.new }
{
    let room = space.len();
    let mut rest: &mut [u8] = space;
    let _ = write!(rest, "{error}");
    room - rest.len().min(room)
}

// The system's words in that text, which has the error's number behind them.
fn words(text: &[u8]) -> &[u8] {
    let mark = b" (os error ";
    for i in 0..text.len() {
        if text[i..].starts_with(mark) {
            return &text[..i];
        }
    }
    text
}

// Writes a line to standard error: what failed, a colon and the system's words. Where that fails too, nothing is told.
pub fn tell<E: Write>(errors: &mut E, what: &[u8], error: Error) {
    let mut space = [0u8; 256];
    let n = put_error(&mut space, error);
    let _ = errors.write_all(what);
    let _ = errors.write_all(b": ");
    let _ = errors.write_all(words(&space[..n]));
    let _ = errors.write_all(b"\n");
}

// Reads some bytes of a file, which has this name for a failure. A proved loop has to end, and nothing says that signals do: it counts
// up to a number that no run reaches.
pub fn read<R: Read, E: Write>(
    source: &mut R,
    errors: &mut E,
    name: &[u8],
    space: &mut [u8],
) -> Result<usize, Failed>
    ensures { IfOk result (λ n. IsPrefixLen n space.new) }
{
    let mut got = source.read(space);
    for _ in 0..u64::MAX {
        if !interrupted(&got) {
            break;
        }
        got = source.read(space);
    }
    if let Err(error) = got {
        tell(errors, name, error);
    }
    piece_of(got, space)
}

// Reads until the space is full, the input ends or a read fails.
pub fn read_full<R: Read, E: Write>(
    source: &mut R,
    errors: &mut E,
    name: &[u8],
    space: &mut [u8],
) -> Result<usize, Stopped>
    ensures whole { IfOk result (λ n. IsPrefixLen n space.new) }
    ensures stopped { IfErr result (λ s. IsPrefixLen s.count space.new) }
{
    let mut done = 0;
    // Kept: a turn goes on by what a read gave, which no range or iterator counts.
    while done < space.len() {
        match read(source, errors, name, &mut space[done..]) {
            Ok(0) => break,
            Ok(n) => done += n,
            Err(Failed) => return Err(Stopped { count: done }),
        }
    }
    Ok(done)
}

// Writes all of some bytes.
pub fn write<W: Write, E: Write>(out: &mut W, errors: &mut E, bytes: &[u8]) -> Result<(), Failed> {
    out.write_all(bytes).map_err(|error| {
        // A pipe that nobody reads any more ends a program with nothing told.
        if error.kind() != ErrorKind::BrokenPipe {
            tell(errors, b"standard output", error);
        }
        Failed
    })
}

// How many arguments a program was started with, its own name among them.
pub fn argument_count<E: Env>(env: &E) -> usize {
    for i in 0..usize::MAX {
        if let Err(FillError::NotPresent) = env.arg(i, &mut []) {
            return i;
        }
    }
    usize::MAX
}

// Puts an argument at the start of a space and gives its length, or 0 where there is none or it has no room.
pub fn argument<E: Env>(env: &E, i: usize, space: &mut [u8]) -> usize
    ensures { IsPrefixLen result space.new }
{
    env.arg(i, space).unwrap_or(0)
}
