// What the chip's registers say, and why an abort came.

ghost use Rattle.std.specs.Prelude.{◌≡◌};
ghost use Rattle.record_of_words.specs.Reading.{record_of};
ghost use Rattle.esr_calls.specs.Calls.{origin_of};
ghost use Rattle.chip.specs.Feature.{edition_of, short_edition_of, marks_of};
ghost use Rattle.chip_calls.specs.Calls.{marks_in, Running};
ghost use Rattle.chip_calls.specs.Calls.{Causing};

// The edition of a board.
#[unsafe(no_mangle)]
pub extern "C" fn knucklepin_edition_raw(pfr0: u64, mmfr0: u64, mmfr1: u64) -> u32
    ensures { result ≡ edition_of (record { 0 = pfr0 }) (record { 0 = mmfr0 }) (record { 0 = mmfr1 }) }
{
    chip_calls::knucklepin_edition_raw(pfr0, mmfr0, mmfr1)
}

// The edition of a board for the short form.
#[unsafe(no_mangle)]
pub extern "C" fn knucklepin_short_edition_raw(pfr0: u64) -> u32
    ensures { result ≡ short_edition_of (record { 0 = pfr0 }) }
{
    chip_calls::knucklepin_short_edition_raw(pfr0)
}

// The marks of a 32-bit guest.
#[unsafe(no_mangle)]
pub extern "C" fn knucklepin_marks_raw(mmfr3: u64, pfr2: u64, pfr0: u64, marks: &mut [u32; 3])
    ensures { marks.new ≡ marks_in (marks_of (record { 0 = mmfr3 }) (record { 0 = pfr2 }) (record { 0 = pfr0 })) }
{
    chip_calls::knucklepin_marks_raw(mmfr3, pfr2, pfr0, marks)
}

// What ran when the chip trapped, and the origin by which its trap is read.
#[unsafe(no_mangle)]
pub extern "C" fn knucklepin_ran_raw(spsr: u64, hcr: u64, origin: &mut u32) -> u32
    ensures { Running (record { 0 = spsr }) (record { 0 = hcr }) result origin.new }
{
    chip_calls::knucklepin_ran_raw(spsr, hcr, origin)
}

// Why an abort came, and whether an injection passes it on.
#[unsafe(no_mangle)]
pub extern "C" fn knucklepin_cause(origin: u32, syndrome: &[u32; 16], cause: &mut [u32; 4]) -> u32
    ensures { Causing (origin_of origin) (record_of syndrome.now) result cause.new }
{
    chip_calls::knucklepin_cause(origin, syndrome, cause)
}
