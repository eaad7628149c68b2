// Whole traps: read, with the record in sixteen words that the caller lends.

ghost use Rattle.trap.specs.Answer.{answer_of};
ghost use Rattle.esr_calls.specs.Calls.{origin_of};
ghost use Rattle.trap_calls.specs.Whole.{TrapWords};

// Reads a whole trap.
#[unsafe(no_mangle)]
pub extern "C" fn knucklepin_trap_read_raw(
    origin: u32,
    edition: u32,
    esr: u64,
    far: u64,
    hpfar: u64,
    syndrome: &mut [u32; 16],
    known: &mut [u32; 3],
    addresses: &mut [u64; 2],
    editions: &mut [u32; 2],
) -> u32
    ensures { TrapWords (answer_of (origin_of origin) edition (record { 0 = esr }) (record { 0 = far }) (record { 0 = hpfar })) result syndrome.new known.new addresses.new editions.new }
{
    trap_calls::knucklepin_trap_read_raw(
        origin, edition, esr, far, hpfar, syndrome, known, addresses, editions,
    )
}
