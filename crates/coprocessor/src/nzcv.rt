// What a read leaves in the registers and the flags. Rt and Rt2 are the state's own numbers.
ghost use Rattle.std.specs.Prelude.{◌≡◌};
ghost use Rattle.coprocessor.specs.Flags.{with_flags, status_after};

// A status word with N, Z, C and V from a value's bits 31:28.
fn with_flags(status: u32, value: u32) -> u32
    ensures { result ≡ with_flags status value }
{
    (value & 0xF000_0000) | (status & 0x0FFF_FFFF)
}

// Register 31 of a read is the manual's APSR_nzcv: the flags.
pub(crate) fn status_after(status: u32, rt: u32, value: u32) -> u32
    ensures { result ≡ status_after status rt value }
{
    if rt == 31 {
        with_flags(status, value)
    } else {
        status
    }
}
