// The writer for callers that have no types for the three kinds of words.
ghost use Rattle.log_writer.specs.Lists.{Lists};
ghost use Rattle.log_writer.specs.Write.{Writing};

use log_writer::{Fars, Hpfars, Syndromes, WriteRefusal};

// Writes a log from plain slices of words, which a caller can exchange unseen: for the border to C alone, where a slice is a pointer and a
// length, and the header gives the words their types. Everyone else calls `log_writer::write`.
// Kept: the C interface (`knucklepin_log_write_raw`) has these slices.
pub fn write_raw<'a, 'b>(
    editions: &'a [u8],
    syndromes: &'a [u64],
    fars: &'a [u64],
    hpfars: &'a [u64],
    injections: &'a [u16],
    out: &'b mut [u8],
) -> Result<usize, WriteRefusal>
    ensures { Writing record { editions = editions.now; syndromes = syndromes.now; fars = fars.now; hpfars = hpfars.now; injections = injections.now } out.old out.new result }
{
    log_writer::write(
        editions,
        Syndromes(syndromes),
        Fars(fars),
        Hpfars(hpfars),
        injections,
        out,
    )
}
