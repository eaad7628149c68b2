// Syndrome words (ESR): read and written, with records in sixteen words that the caller lends.

ghost use Rattle.syndrome.specs.Reading.{read_of};
ghost use Rattle.syndrome.specs.Writing.{write_of};
ghost use Rattle.record_of_words.specs.Reading.{record_of};
ghost use Rattle.esr_calls.specs.Calls.{origin_of, ReadWords, WrittenWords};

// Reads a syndrome word.
#[unsafe(no_mangle)]
pub extern "C" fn knucklepin_esr_read_raw(
    origin: u32,
    edition: u32,
    esr: u64,
    syndrome: &mut [u32; 16],
    editions: &mut [u32; 2],
) -> u32
    ensures { ReadWords (read_of (origin_of origin) edition (record { 0 = esr })) result syndrome.new editions.new }
{
    esr_calls::knucklepin_esr_read_raw(origin, edition, esr, syndrome, editions)
}

// Writes a record.
#[unsafe(no_mangle)]
pub extern "C" fn knucklepin_esr_write_raw(
    origin: u32,
    edition: u32,
    syndrome: &[u32; 16],
    esr: &mut u64,
    editions: &mut [u32; 2],
) -> u32
    ensures { WrittenWords (write_of (origin_of origin) edition (record_of syndrome.now)) result esr.new editions.new }
{
    esr_calls::knucklepin_esr_write_raw(origin, edition, syndrome, esr, editions)
}
