// Replies: the numbers of a line, and the line written.
ghost use Rattle.std.specs.Prelude.{◌≡◌, [], ◌∷◌};
ghost use Rattle.rows.specs.Reply.{no_row, with_one, with_first, with_change, with_changes};

use std::io::Write;
use text::Text;

// What a row is answered by. No call answers with more numbers.
// Kept: fixed memory: a reply is a value, and no call allocates.
#[derive(Clone, Copy)]
pub struct Reply {
    count: usize,
    numbers: [u64; 256],
}

// To a line that is no row of the program's calls: a reply with no number, which is written so.
pub fn no_row() -> Reply
    ensures { result ≡ no_row }
{
    Reply {
        count: 0,
        numbers: [0; 256],
    }
}

// A reply with one number more.
pub fn with(reply: Reply, n: u64) -> Reply
    ensures { result ≡ with_one reply n }
{
    let mut next = reply;
    let count = next.count;
    if count < 256 {
        next.numbers[count] = n;
        next.count = count + 1;
    }
    next
}

pub fn one(n: u64) -> Reply
    ensures { result ≡ with_one no_row n }
{
    with(no_row(), n)
}

fn wide(word: u32) -> u64
    ensures { result ≡ word }
{
    word as u64
}

// A reply with a refusal's number, mask and count after it.
pub fn refused(reply: Reply, number: u32, mask: u32, count: u32) -> Reply
    ensures { result ≡ with_first reply (number ∷ mask ∷ count ∷ []) 3 }
{
    with(with(with(reply, wide(number)), wide(mask)), wide(count))
}

// A reply with sixteen words after it.
pub fn with_sixteen(reply: Reply, words: [u32; 16]) -> Reply
    ensures { result ≡ with_first reply words 16 }
{
    let mut next = reply;
    for i in 0..16 {
        next = with(next, wide(words[i]));
    }
    next
}

// A word after its place, where it isn't the one that stood there before.
fn with_change(reply: Reply, place: usize, before: u32, after: u32) -> Reply
    ensures { result ≡ with_change reply place before after }
{
    if before == after {
        return reply;
    }
    with(with(reply, place as u64), wide(after))
}

// A reply with those words of a state that aren't as before, each after its place.
pub fn with_changes(reply: Reply, before: [u32; 48], after: [u32; 48]) -> Reply
    ensures { result ≡ with_changes reply before after 48 }
{
    let mut next = reply;
    for place in 0..48 {
        next = with_change(next, place, before[place], after[place]);
    }
    next
}

fn number_at(reply: Reply, at: usize) -> u64 {
    let numbers = reply.numbers;
    if at < 256 { numbers[at] } else { 0 }
}

// Appends a space and a number.
fn put_next(text: &mut Text<'_>, n: u64) {
    text.append(b" ");
    text.append_hex(n);
}

// Puts a reply's numbers into a line.
fn put(text: &mut Text<'_>, reply: Reply) {
    text.append_hex(number_at(reply, 0));
    for at in 1..reply.count {
        put_next(text, number_at(reply, at));
    }
}

// Writes a reply as a line, for which there is room: 256 numbers of 16 digits and what follows each. Tells whether it could be written.
pub fn write<W: Write>(out: &mut W, reply: Reply) -> bool {
    if reply.count == 0 {
        return out.write_all(b"no row\n").is_ok();
    }
    let mut line = [0u8; 4352];
    let mut text = Text::new(&mut line);
    put(&mut text, reply);
    text.append(b"\n");
    out.write_all(text.written()).is_ok()
}
