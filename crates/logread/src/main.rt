// Reads a trap log from the file that its argument names, or from standard input, and writes it as lines of text, piece by piece.
#![tactic(auto)]

ghost use Rattle.std.specs.Prelude.{◌≤◌, ◌<◌, ◌≡◌, [], IfOk, length, take, get_or};
ghost use Rattle.io.specs.Counts.{IsPrefixLen};
ghost use Rattle.log_pieces.specs.Text.{shown, seen_mask, pieces_in, pieces_of};
ghost use Rattle.text.specs.Append.{Appends};

use std::env::Env;
use std::fs::File;
use std::io::{Error, ErrorKind, Read, Write};
use std::rt::Files;
use stream::Failed;
use text::Text;

// Reads a file into a buffer. One byte more than a log may have is enough to refuse an input of any length, and no more is read. No
// contract can say which bytes were read.
fn read_log<R: Read, E: Write>(
    file: &mut R,
    errors: &mut E,
    name: &[u8],
    space: &mut [u8],
) -> Result<usize, Failed>
    requires { 65536 < length space.old }
    ensures { IfOk result (λ n. IsPrefixLen n space.new) }
{
    Ok(stream::read_full(file, errors, name, space)?)
}

// Puts piece i at the start of a buffer, and gives its end.
fn put_piece(out: &mut [u8], log: &[u8], seen: u32, explained: bool, i: usize) -> usize
    ensures { Appends (get_or (pieces_in seen explained log.now) i []) out.old 0 out.new result }
{
    let mut text = Text::new(out);
    log_pieces::piece(&mut text, log, seen, explained, i);
    text.end
}

// Puts piece i of a log's text into a buffer that has room for any piece.
fn piece(out: &mut [u8], log: &[u8], seen: u32, explained: bool, i: usize) -> usize
    requires in_bounds { 65536 ≤ length out.old }
    requires seen_value { seen ≡ seen_mask (shown log.now) }
    ensures out_after { take result out.new ≡ get_or (pieces_of explained log.now) i [] }
    ensures prefix_len { IsPrefixLen result out.new }
{
    put_piece(out, log, seen, explained, i)
}

// Writes piece i. No contract can say what was written.
fn write_piece<W: Write, E: Write>(
    output: &mut W,
    errors: &mut E,
    out: &mut [u8],
    log: &[u8],
    seen: u32,
    explained: bool,
    i: usize,
) -> Result<(), Failed>
    requires in_bounds { 65536 ≤ length out.old }
    requires seen_value { seen ≡ seen_mask (shown log.now) }
{
    let end = piece(out, log, seen, explained, i);
    stream::write(output, errors, &out[..end])
}

// Writes a log's text. A write that fails ends it.
fn write_text<W: Write, E: Write>(
    output: &mut W,
    errors: &mut E,
    out: &mut [u8],
    log: &[u8],
    explained: bool,
) -> Result<(), Failed>
    requires { 65536 ≤ length out.old }
{
    let seen = log_pieces::known_editions(log);
    for i in 0..log_pieces::count(log) {
        write_piece(output, errors, out, log, seen, explained, i)?;
    }
    Ok(())
}

// Shows the log in a file that is open for reading and has this name. What was read before a read that failed is no log.
fn show<R: Read, W: Write, E: Write>(
    file: &mut R,
    output: &mut W,
    errors: &mut E,
    name: &[u8],
    explained: bool,
) -> Result<(), Failed> {
    let mut space = [0u8; 65537];
    let n = read_log(file, errors, name, &mut space)?;
    let mut out = io::large_buffer();
    write_text(output, errors, &mut out, &space[..n], explained)
}

const HELP: [u8; 396] = *b"\
    Shows a trap log: how it was read, the editions seen, each trap with its registers and what\n\
    each known edition among those seen makes of it, and the injections; of a log that is cut\n\
    short what precedes the cut.\n\
    \n\
    logread FILE              the log in a file\n\
    logread                   the log on standard input\n\
    logread --explain [FILE]  the same, and after each answer what explain says of the trap\n\
    ";

fn help<W: Write, E: Write>(output: &mut W, errors: &mut E) -> Result<(), Failed> {
    stream::write(output, errors, &HELP)
}

fn usage<E: Write>(errors: &mut E) -> Result<(), Failed> {
    let _ = errors.write_all(b"usage: logread [--explain] [FILE], or logread --help\n");
    Err(Failed)
}

// Opens a file for reading. The library takes no name that is not UTF-8.
fn open_named<R: Files>(files: &R, name: &[u8]) -> Result<R::File, Error> {
    let path = str::from_utf8(name).map_err(|_| Error::from(ErrorKind::InvalidFilename))?;
    File::open(files, path)
}

// Shows the log in the file that an argument names, or says why it can't be opened.
fn show_named<F: Files, W: Write, E: Write>(
    files: &F,
    output: &mut W,
    errors: &mut E,
    name: &[u8],
    explained: bool,
) -> Result<(), Failed> {
    match open_named(files, name) {
        Ok(mut file) => show(&mut file, output, errors, name, explained),
        Err(error) => {
            stream::tell(errors, name, error);
            Err(Failed)
        }
    }
}

// Shows the log that the arguments from one on name: the file, or standard input where there is none.
fn show_from(rt: &HostRuntime, i: usize, explained: bool) -> Result<(), Failed> {
    let mut output = rt.stdout();
    let mut errors = rt.stderr();
    let count = stream::argument_count(rt);
    if count <= i {
        return show(
            &mut rt.stdin(),
            &mut output,
            &mut errors,
            b"standard input",
            explained,
        );
    }
    if count - i > 1 {
        return usage(&mut errors);
    }
    let mut name = io::buffer();
    let n = stream::argument(rt, i, &mut name);
    show_named(rt, &mut output, &mut errors, &name[..n], explained)
}

// What the arguments ask for.
fn run(rt: &HostRuntime) -> Result<(), Failed> {
    let mut first = io::buffer();
    let n = stream::argument(rt, 1, &mut first);
    let first = &first[..n];
    if first == b"--explain".as_slice() {
        return show_from(rt, 2, true);
    }
    if (stream::argument_count(rt) == 2) & (first == b"--help".as_slice()) {
        return help(&mut rt.stdout(), &mut rt.stderr());
    }
    show_from(rt, 1, false)
}

// A failure was told where it came, and the program's status is 0 all the same.
fn main(rt: HostRuntime) {
    let _ = run(&rt);
}
