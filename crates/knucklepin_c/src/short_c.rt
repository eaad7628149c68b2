// Words of the short form (HSR): read, written and widened.

ghost use Rattle.short.specs.Reading.{read_of};
ghost use Rattle.short.specs.Writing.{write_of};
ghost use Rattle.short_words.specs.Reading.{record_of};
ghost use Rattle.short_calls.specs.Calls.{ReadWords, WrittenWords, WidenedWords};
ghost use Rattle.widen.specs.Widening.{widen_of};

// Reads a syndrome word.
#[unsafe(no_mangle)]
pub extern "C" fn knucklepin_hsr_read_raw(
    edition: u32,
    hsr: u32,
    syndrome: &mut [u32; 16],
    editions: &mut [u32; 2],
) -> u32
    ensures { ReadWords (read_of edition (record { 0 = hsr })) result syndrome.new editions.new }
{
    short_calls::knucklepin_hsr_read_raw(edition, hsr, syndrome, editions)
}

// Writes a record.
#[unsafe(no_mangle)]
pub extern "C" fn knucklepin_hsr_write_raw(
    edition: u32,
    syndrome: &[u32; 16],
    hsr: &mut u32,
    editions: &mut [u32; 2],
) -> u32
    ensures { WrittenWords (write_of edition (record_of syndrome.now)) result hsr.new editions.new }
{
    short_calls::knucklepin_hsr_write_raw(edition, syndrome, hsr, editions)
}

// Changes a short record to a long one.
#[unsafe(no_mangle)]
pub extern "C" fn knucklepin_widen(mode: u32, from: &[u32; 16], to: &mut [u32; 16]) -> u32
    ensures { WidenedWords (widen_of mode (record_of from.now)) result to.new }
{
    short_calls::knucklepin_widen(mode, from, to)
}
