// Little-endian numbers in a slice of bytes.
ghost use Rattle.std.specs.Prelude.{◌≡◌, ◌+◌, ◌*◌, ◌<◌, ◌≤◌, ◌^◌, length, take, drop};
ghost use Rattle.log_section.specs.Number.{number};

// The number that four bytes make, the lowest first.
fn joined(first: u8, second: u8, third: u8, last: u8) -> u64
    ensures { (result ≡ first + 256 * (second + 256 * (third + 256 * last))) × (result < 2 ^ 32) }
{
    first as u64 + 256 * (second as u64 + 256 * (third as u64 + 256 * (last as u64)))
}

// The number in the four bytes from a place on.
pub(crate) fn four(bytes: &[u8], at: usize) -> u64
    requires { at + 4 ≤ length bytes.now }
    ensures { (result ≡ number (take 4 (drop at bytes.now))) × (result < 2 ^ 32) }
{
    joined(bytes[at], bytes[at + 1], bytes[at + 2], bytes[at + 3])
}

// The number in the eight bytes from a place on.
pub(crate) fn eight(bytes: &[u8], at: usize) -> u64
    requires { at + 8 ≤ length bytes.now }
    ensures { result ≡ number (take 8 (drop at bytes.now)) }
{
    four(bytes, at) + 4294967296 * four(bytes, at + 4)
}
