// Trap logs: read, looked at and written.

ghost use Rattle.std.specs.Prelude.{◌≡◌};
ghost use Rattle.trap_log.specs.Answer.{read_of};
ghost use Rattle.log_reader.specs.Reader.{look_in};
ghost use Rattle.log_calls.specs.Calls.{ReadLog, found_in, WrittenLog};

// Reads a log.
#[unsafe(no_mangle)]
pub extern "C" fn knucklepin_log_read(log: &[u8], answer: &mut [u64; 2]) -> u32
    ensures { ReadLog (read_of log.now) result answer.new }
{
    log_calls::knucklepin_log_read(log, answer)
}

// Looks at entry i of the section after so many.
#[unsafe(no_mangle)]
pub extern "C" fn knucklepin_log_look(log: &[u8], passed: u32, i: u64, found: &mut [u64; 5])
    ensures { found.new ≡ found_in (look_in log.now passed i) }
{
    log_calls::knucklepin_log_look(log, passed, i, found)
}

// Writes a log.
#[unsafe(no_mangle)]
pub extern "C" fn knucklepin_log_write_raw<'a, 'b>(
    editions: &'a [u8],
    syndromes: &'a [u64],
    fars: &'a [u64],
    hpfars: &'a [u64],
    injections: &'a [u16],
    buffer: &'b mut [u8],
    length: &'b mut u64,
) -> u32
    ensures { WrittenLog record { editions = editions.now; syndromes = syndromes.now; fars = fars.now; hpfars = hpfars.now; injections = injections.now } buffer.old result buffer.new length.new }
{
    log_calls::knucklepin_log_write_raw(
        editions, syndromes, fars, hpfars, injections, buffer, length,
    )
}
