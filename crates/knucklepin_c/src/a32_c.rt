// A32 loads and stores that the chip doesn't describe: described and finished in a state of 48 words.

ghost use Rattle.state_words.specs.Words.{state_of};
ghost use Rattle.a32_calls.specs.Calls.{DescribedWords, FinishedWords};

// Describes an instruction.
#[unsafe(no_mangle)]
pub extern "C" fn knucklepin_a32_describe(
    state: &[u32; 48],
    word: u32,
    access: &mut [u32; 16],
    registers: &mut [u32; 16],
) -> u32
    ensures { DescribedWords (state_of state.now) word result access.new registers.new }
{
    a32_calls::knucklepin_a32_describe(state, word, access, registers)
}

// Finishes a load or store.
#[unsafe(no_mangle)]
pub extern "C" fn knucklepin_a32_finish(
    state: &mut [u32; 48],
    word: u32,
    values: &[u32; 16],
    transfer: &mut [u32; 2],
    addresses: &mut [u32; 16],
    given: &mut [u32; 16],
) -> u32
    ensures { FinishedWords state.old word values.now result state.new transfer.new addresses.new given.new }
{
    a32_calls::knucklepin_a32_finish(state, word, values, transfer, addresses, given)
}
