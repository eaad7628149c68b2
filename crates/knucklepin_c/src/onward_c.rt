// Going on from a trap, in a state of 48 words that the caller lends.

ghost use Rattle.std.specs.Prelude.{◌≡◌};
ghost use Rattle.step.specs.Condition.{passes};
ghost use Rattle.record_words.specs.Words.{flag};
ghost use Rattle.record_of_words.specs.Reading.{record_of};
ghost use Rattle.onward_calls.specs.Calls.{Stepping, Finishing, Transferring};

// Whether a trapped instruction counts.
#[unsafe(no_mangle)]
pub extern "C" fn knucklepin_passes(status: u32, syndrome: &[u32; 16]) -> u32
    ensures { result ≡ flag (passes status (record_of syndrome.now)) }
{
    onward_calls::knucklepin_passes(status, syndrome)
}

// Steps over an instruction.
#[unsafe(no_mangle)]
pub extern "C" fn knucklepin_step_over(state: &mut [u32; 48], syndrome: &[u32; 16]) -> u32
    ensures { Stepping state.old (record_of syndrome.now) result state.new }
{
    onward_calls::knucklepin_step_over(state, syndrome)
}

// Finishes a load or store.
#[unsafe(no_mangle)]
pub extern "C" fn knucklepin_finish(
    state: &mut [u32; 48],
    syndrome: &[u32; 16],
    value: u32,
    given: &mut u32,
) -> u32
    ensures { Finishing state.old (record_of syndrome.now) value result state.new given.new }
{
    onward_calls::knucklepin_finish(state, syndrome, value, given)
}

// Finishes a coprocessor read or write.
#[unsafe(no_mangle)]
pub extern "C" fn knucklepin_coprocessor_finish(
    state: &mut [u32; 48],
    syndrome: &[u32; 16],
    first: u32,
    second: u32,
    given: &mut [u32; 2],
) -> u32
    ensures { Transferring state.old (record_of syndrome.now) first second result state.new given.new }
{
    onward_calls::knucklepin_coprocessor_finish(state, syndrome, first, second, given)
}
