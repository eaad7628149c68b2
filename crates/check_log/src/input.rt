// What a question asks about, from the program's input. Where the input has ended or a read has failed, every number is 0.
//
// A list is its length, how many of its entries follow, and these. The others are as the buffer has them. Of a list that has no room in the
// buffer a number above the room is given.
ghost use Rattle.std.specs.Prelude.{◌≤◌, length};

use std::io::Read;

// Reads until the space is full, the input ends or a read fails, and gives how many bytes it put at the start of the space.
fn read_full<R: Read>(input: &mut R, space: &mut [u8]) -> usize
    ensures { result ≤ length space.new }
{
    let mut done = 0;
    // Kept: the new form is no plainer. `read_exact` doesn't say how much it read before an end, and a `for` doesn't count by reads.
    while done < space.len() {
        match input.read(&mut space[done..]) {
            Ok(0) => break,
            Ok(n) => done += n,
            Err(_) => break,
        }
    }
    done
}

// The next byte, or 0 at the end.
pub fn letter<R: Read>(input: &mut R) -> u8 {
    let mut one = [0u8; 1];
    read_full(input, &mut one);
    one[0]
}

// A number of four bytes, the lowest first.
pub fn number<R: Read>(input: &mut R) -> u32 {
    let mut four = [0u8; 4];
    read_full(input, &mut four);
    u32::from_le_bytes(four)
}

// Passes over so many entries, each as long as the space that is lent for it.
fn skip<R: Read>(input: &mut R, entry: &mut [u8], entries: usize) {
    for _ in 0..entries {
        if read_full(input, entry) < entry.len() {
            break;
        }
    }
}

// Reads a list of bytes to the front of a buffer, and gives its length.
pub fn bytes<R: Read>(input: &mut R, space: &mut [u8]) -> usize {
    let length = number(input) as usize;
    let given = number(input) as usize;
    if space.len() < given {
        let mut entry = [0u8; 1];
        skip(input, &mut entry, given);
        return given;
    }
    read_full(input, &mut space[0..given]);
    length
}

// A number of so many bytes, the lowest first.
pub trait Unsigned<const N: usize>: Copy {
    fn of(bytes: [u8; N]) -> Self;
}

impl Unsigned<2> for u16 {
    fn of(bytes: [u8; 2]) -> u16 {
        u16::from_le_bytes(bytes)
    }
}

impl Unsigned<8> for u64 {
    fn of(bytes: [u8; 8]) -> u64 {
        u64::from_le_bytes(bytes)
    }
}

// The same for numbers of so many bytes. Each half is read for itself: what comes after a read that failed in the lower one is the upper.
pub fn numbers<R: Read, T: Unsigned<N>, const N: usize>(input: &mut R, space: &mut [T]) -> usize
    requires { N ≤ 8 }
{
    let length = number(input) as usize;
    let given = number(input) as usize;
    if space.len() < given {
        let mut entry = [0u8; N];
        skip(input, &mut entry, given);
        return given;
    }
    for i in 0..given {
        let mut entry = [0u8; N];
        let halves = &mut entry[..];
        read_full(input, &mut halves[..N / 2]);
        read_full(input, &mut halves[N / 2..]);
        space[i] = T::of(entry);
    }
    length
}

// The first n of a buffer, or all of it where it has fewer.
pub fn first<T>(space: &[T], n: usize) -> &[T] {
    if n <= space.len() {
        &space[0..n]
    } else {
        space
    }
}

pub fn front(space: &mut [u8], n: usize) -> &mut [u8] {
    if n <= space.len() {
        &mut space[0..n]
    } else {
        space
    }
}
