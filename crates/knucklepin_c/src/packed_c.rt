// The readers and writers, each with one number for an answer.

ghost use Rattle.std.specs.Prelude.{◌≡◌};
ghost use Rattle.record.specs.declared.origin.Origin.{Origin};
ghost use Rattle.packed_calls.specs.Packed.{packed_read, rewritten};
ghost use Rattle.packed_calls.specs.Short.{packed_short_read, rewritten_short};
ghost use Rattle.packed_calls.specs.A32.{a32_form, rewritten_a32};

// Reads a syndrome word of a trap from AArch32.
#[unsafe(no_mangle)]
pub extern "C" fn knucklepin_read(edition: u32, word: u64) -> u64
    ensures { result ≡ packed_read Origin.AArch32 edition word }
{
    packed_calls::knucklepin_read(edition, word)
}

// Reads a syndrome word of a trap from AArch32 in one edition and writes the record in another.
#[unsafe(no_mangle)]
pub extern "C" fn knucklepin_rewrite(reader: u32, writer: u32, word: u64) -> u64
    ensures { result ≡ rewritten Origin.AArch32 reader writer word }
{
    packed_calls::knucklepin_rewrite(reader, writer, word)
}

// The same of a trap from AArch64.
#[unsafe(no_mangle)]
pub extern "C" fn knucklepin_aarch64_read(edition: u32, word: u64) -> u64
    ensures { result ≡ packed_read Origin.AArch64 edition word }
{
    packed_calls::knucklepin_aarch64_read(edition, word)
}

// The same of a trap from AArch64.
#[unsafe(no_mangle)]
pub extern "C" fn knucklepin_aarch64_rewrite(reader: u32, writer: u32, word: u64) -> u64
    ensures { result ≡ rewritten Origin.AArch64 reader writer word }
{
    packed_calls::knucklepin_aarch64_rewrite(reader, writer, word)
}

// Reads a word of the short form: 0 where it is taken, else the refusal as one number.
#[unsafe(no_mangle)]
pub extern "C" fn knucklepin_short_read(edition: u32, word: u32) -> u64
    ensures { result ≡ packed_short_read edition word }
{
    packed_calls::knucklepin_short_read(edition, word)
}

// Reads a word of the short form in one edition and writes the record in another: the word, or all ones where either refuses.
#[unsafe(no_mangle)]
pub extern "C" fn knucklepin_short_rewrite(reader: u32, writer: u32, word: u32) -> u64
    ensures { result ≡ rewritten_short reader writer word }
{
    packed_calls::knucklepin_short_rewrite(reader, writer, word)
}

// The form of a word that is an A32 load or store: its transfer's number, and 16 more with a register, 32 for a literal; 48 for STM and 49
// for LDM. All ones where the word is none.
#[unsafe(no_mangle)]
pub extern "C" fn knucklepin_a32_form(word: u32) -> u64
    ensures { result ≡ a32_form word }
{
    packed_calls::knucklepin_a32_form(word)
}

// Reads an A32 load or store and writes its fields: the word, or all ones where either refuses.
#[unsafe(no_mangle)]
pub extern "C" fn knucklepin_a32_rewrite(word: u32) -> u64
    ensures { result ≡ rewritten_a32 word }
{
    packed_calls::knucklepin_a32_rewrite(word)
}
