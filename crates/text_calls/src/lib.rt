// What the program `explain` says of a word, of a whole trap and of a word of the short form, for other languages: as text in a buffer that
// the caller lends.
#![tactic(auto)]

ghost use Rattle.text.specs.Append.{Appends};
ghost use Rattle.explain_text.specs.Word.{word_said};
ghost use Rattle.explain_text.specs.Trap.{trap_said};
ghost use Rattle.short_text.specs.Said.{short_said};

use registers::{Esr, Far, Hpfar, Hsr};
use text::Text;

// What is said of a word.
pub fn knucklepin_explain_word_raw(edition: u32, esr: u64, text: &mut [u8]) -> u64
    ensures { Appends (word_said edition (record { 0 = esr })) text.old 0 text.new result }
{
    let mut said = Text::new(text);
    explain_text::word_said(&mut said, edition, Esr(esr));
    said.end as u64
}

// What is said of a whole trap.
pub fn knucklepin_explain_trap_raw(
    edition: u32,
    esr: u64,
    far: u64,
    hpfar: u64,
    text: &mut [u8],
) -> u64
    ensures { Appends (trap_said edition (record { 0 = esr }) (record { 0 = far }) (record { 0 = hpfar })) text.old 0 text.new result }
{
    let mut said = Text::new(text);
    explain_text::trap_said(&mut said, edition, Esr(esr), Far(far), Hpfar(hpfar));
    said.end as u64
}

// What is said of a word of the short form.
pub fn knucklepin_explain_short_raw(edition: u32, hsr: u32, text: &mut [u8]) -> u64
    ensures { Appends (short_said edition (record { 0 = hsr })) text.old 0 text.new result }
{
    let mut said = Text::new(text);
    short_text::said(&mut said, edition, Hsr(hsr));
    said.end as u64
}
