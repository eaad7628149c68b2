// Exceptions of a guest: injected, delivered and returned from, in a state of 48 words that the caller lends.

ghost use Rattle.std.specs.Prelude.{◌≡◌};
ghost use Rattle.state_words.specs.Words.{state_of};
ghost use Rattle.pending_words.specs.Number.{queue_number, raised_by, waiting_in};
ghost use Rattle.guest_calls.specs.Asked.{held_number, injection_of};
ghost use Rattle.guest_calls.specs.Calls.{SavedWord, WrittenWord, Injecting, injection_correction, Delivering};
ghost use Rattle.guest_calls.specs.Calls.{delivery_correction, Returning};

// The AArch64 number of a register of a mode.
#[unsafe(no_mangle)]
pub extern "C" fn knucklepin_held_in(mode: u32, number: u32) -> u32
    ensures { result ≡ held_number mode number }
{
    guest_calls::knucklepin_held_in(mode, number)
}

// The guest's status word, from the word that the hypervisor saved of it.
#[unsafe(no_mangle)]
pub extern "C" fn knucklepin_from_spsr(
    pan: u32,
    ssbs: u32,
    dit: u32,
    spsr: u32,
    status: &mut u32,
) -> u32
    ensures { SavedWord pan ssbs dit spsr result status.new }
{
    guest_calls::knucklepin_from_spsr(pan, ssbs, dit, spsr, status)
}

// The word to write into SPSR_EL2, from the guest's status word.
#[unsafe(no_mangle)]
pub extern "C" fn knucklepin_to_spsr(
    pan: u32,
    ssbs: u32,
    dit: u32,
    status: u32,
    spsr: &mut u32,
) -> u32
    ensures { WrittenWord pan ssbs dit status result spsr.new }
{
    guest_calls::knucklepin_to_spsr(pan, ssbs, dit, status, spsr)
}

// Injects an exception.
#[unsafe(no_mangle)]
pub extern "C" fn knucklepin_inject(
    state: &mut [u32; 48],
    injection: u32,
    fault: u32,
    level: u32,
    address: u64,
    write: u32,
    domain: u32,
) -> u32
    ensures { Injecting state.old (injection_of injection fault level address write domain) result state.new }
{
    guest_calls::knucklepin_inject(state, injection, fault, level, address, write, domain)
}

// What an injection adds to PC for its link, modulo 2^32.
#[unsafe(no_mangle)]
pub extern "C" fn knucklepin_injection_correction(state: &[u32; 48], injection: u32) -> u32
    ensures { result ≡ injection_correction (state_of state.now) injection }
{
    guest_calls::knucklepin_injection_correction(state, injection)
}

// A queue after the kind of a number was raised.
#[unsafe(no_mangle)]
pub extern "C" fn knucklepin_raise(queue: u32, kind: u32) -> u32
    ensures { result ≡ queue_number (raised_by kind (waiting_in queue)) }
{
    guest_calls::knucklepin_raise(queue, kind)
}

// Makes a delivery step: `pending` is the queue, and then what was delivered.
#[unsafe(no_mangle)]
pub extern "C" fn knucklepin_deliver(state: &mut [u32; 48], pending: &mut [u32; 2]) -> u32
    ensures { Delivering state.old pending.old result state.new pending.new }
{
    guest_calls::knucklepin_deliver(state, pending)
}

// What the delivery of a kind adds to PC for its link, modulo 2^32.
#[unsafe(no_mangle)]
pub extern "C" fn knucklepin_delivery_correction(state: &[u32; 48], kind: u32) -> u32
    ensures { result ≡ delivery_correction (state_of state.now) kind }
{
    guest_calls::knucklepin_delivery_correction(state, kind)
}

// Returns the guest from an exception.
#[unsafe(no_mangle)]
pub extern "C" fn knucklepin_resume(state: &mut [u32; 48], correction: u32) -> u32
    ensures { Returning state.old correction result state.new }
{
    guest_calls::knucklepin_resume(state, correction)
}
