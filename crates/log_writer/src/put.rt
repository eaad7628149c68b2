// Entries and sections put into a buffer with room for them. Each gives where the next one goes.
ghost use Rattle.std.specs.Prelude.{◌≡◌, ◌+◌, ◌*◌, ◌≤◌, ℕ, List, length};
ghost use Rattle.std.proofs.lemmas.List.Edits.{sets};
ghost use Rattle.log_section.specs.Number.{little};
ghost use Rattle.log_section.specs.Log.{byte, word, pair, injection, section_bytes};
ghost use Rattle.log_section.proofs.Numbers.{length_little};
ghost use Rattle.log_writer.specs.Lists.{paired};

// An entry that is one number, in so many bytes, the lowest first.
pub(crate) trait Entry: Copy {
    ghost size: { ℕ };

    ghost bytes: { Self → List ℕ };

    fn put(self, out: &mut [u8], at: usize) -> usize
        requires { at + size ≤ length out.old }
        ensures { (result ≡ at + size) × (out.new ≡ sets out.old at (bytes self)) };

    ghost sized: { (n : Self) → length (bytes n) ≡ size };
}

impl Entry for u8 {
    ghost size = { 1 };

    ghost bytes = { byte };

    ghost sized = { length_little 1 };

    fn put(self, out: &mut [u8], at: usize) -> usize {
        out[at] = self;
        at + 1
    }
}

impl Entry for u16 {
    ghost size = { 2 };

    ghost bytes = { injection };

    ghost sized = { length_little 2 };

    fn put(self, out: &mut [u8], at: usize) -> usize {
        let bytes = self.to_le_bytes();
        out[at] = bytes[0];
        out[at + 1] = bytes[1];
        at + 2
    }
}

impl Entry for u64 {
    ghost size = { 8 };

    ghost bytes = { word };

    ghost sized = { length_little 8 };

    fn put(self, out: &mut [u8], at: usize) -> usize {
        let bytes = self.to_le_bytes();
        out[at] = bytes[0];
        out[at + 1] = bytes[1];
        out[at + 2] = bytes[2];
        out[at + 3] = bytes[3];
        out[at + 4] = bytes[4];
        out[at + 5] = bytes[5];
        out[at + 6] = bytes[6];
        out[at + 7] = bytes[7];
        at + 8
    }
}

// The lowest four bytes of a count.
fn count(out: &mut [u8], at: usize, n: usize) -> usize
    requires { at + 4 ≤ length out.old }
    ensures { (result ≡ at + 4) × (out.new ≡ sets out.old at (little 4 n)) }
{
    let bytes = n.to_le_bytes();
    out[at] = bytes[0];
    out[at + 1] = bytes[1];
    out[at + 2] = bytes[2];
    out[at + 3] = bytes[3];
    at + 4
}

// A section of entries.
pub(crate) fn section<E: Entry>(out: &mut [u8], at: usize, entries: &[E]) -> usize
    requires { at + 4 + length entries.now * E.size ≤ length out.old }
    ensures { (result ≡ at + 4 + length entries.now * E.size) × (out.new ≡ sets out.old at (section_bytes E.bytes entries.now)) }
{
    let mut end = count(out, at, entries.len());
    for entry in entries {
        end = entry.put(out, end);
    }
    end
}

// A section of pairs, FAR and then HPFAR: addresses.
// Kept beside `section`: a pair comes from two slices, so that it is no entry of a slice.
pub(crate) fn pairs(out: &mut [u8], at: usize, fars: &[u64], hpfars: &[u64]) -> usize
    requires { (length fars.now ≡ length hpfars.now) × (at + 4 + length fars.now * 16 ≤ length out.old) }
    ensures { (result ≡ at + 4 + length fars.now * 16) × (out.new ≡ sets out.old at (section_bytes pair (paired fars.now hpfars.now))) }
{
    let mut end = count(out, at, fars.len());
    for i in 0..fars.len() {
        let middle = fars[i].put(out, end);
        end = hpfars[i].put(out, middle);
    }
    end
}
