// What the program `explain` says of a word, of a whole trap and of a word of the short form, for other languages: as text in a buffer that
// the caller lends. Each is the call of the same name of crate text_calls. A library of its own: it brings the manual's texts along.
// Kept: the C interface: an exported name stands in the static library alone.
#![tactic(auto)]

ghost use Rattle.text.specs.Append.{Appends};
ghost use Rattle.explain_text.specs.Word.{word_said};
ghost use Rattle.explain_text.specs.Trap.{trap_said};
ghost use Rattle.short_text.specs.Said.{short_said};

// What is said of a word.
#[unsafe(no_mangle)]
pub extern "C" fn knucklepin_explain_word_raw(edition: u32, esr: u64, text: &mut [u8]) -> u64
    ensures { Appends (word_said edition (record { 0 = esr })) text.old 0 text.new result }
{
    text_calls::knucklepin_explain_word_raw(edition, esr, text)
}

// What is said of a whole trap.
#[unsafe(no_mangle)]
pub extern "C" fn knucklepin_explain_trap_raw(
    edition: u32,
    esr: u64,
    far: u64,
    hpfar: u64,
    text: &mut [u8],
) -> u64
    ensures { Appends (trap_said edition (record { 0 = esr }) (record { 0 = far }) (record { 0 = hpfar })) text.old 0 text.new result }
{
    text_calls::knucklepin_explain_trap_raw(edition, esr, far, hpfar, text)
}

// What is said of a word of the short form.
#[unsafe(no_mangle)]
pub extern "C" fn knucklepin_explain_short_raw(edition: u32, hsr: u32, text: &mut [u8]) -> u64
    ensures { Appends (short_said edition (record { 0 = hsr })) text.old 0 text.new result }
{
    text_calls::knucklepin_explain_short_raw(edition, hsr, text)
}
