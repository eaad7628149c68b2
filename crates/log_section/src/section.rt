// The section that some bytes begin with.
ghost use Rattle.std.specs.Prelude.{◌≡◌};
ghost use Rattle.log_section.specs.Section.{section_of};

use super::number::four;

// The size of an entry, once for each section.
pub const EDITION: u32 = 1;

pub const SYNDROME: u32 = 8;

pub const ADDRESS: u32 = 16;

pub const INJECTION: u32 = 2;

// A whole section has its count of entries, and its end is where the next one begins.
#[derive(Clone, Copy)]
pub struct Section {
    pub count: usize,
    pub end: usize,
}

// None where the count is cut short or passes the end. The product is taken in 64 bits: no 32-bit count and size can wrap it.
pub fn front(rest: &[u8], size: u32) -> Option<Section>
    ensures { result ≡ section_of size rest.now }
{
    if rest.len() < 4 {
        return None;
    }
    let count = four(rest, 0);
    let end = 4 + count * (size as u64);
    if (rest.len() as u64) < end {
        return None;
    }
    Some(Section {
        count: count as usize,
        end: end as usize,
    })
}
