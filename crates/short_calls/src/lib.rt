// Syndrome words of the short form (HSR) for other languages: read, written, and a short record changed to a long one.
#![tactic(auto)]

ghost use Rattle.std.specs.Prelude.{[], ◌∷◌, ◌≡◌, Err};
ghost use Rattle.edition.specs.Judge.{refusal_mask, refusal_count};
ghost use Rattle.short.specs.Reading.{read_of};
ghost use Rattle.short.specs.Writing.{write_of};
ghost use Rattle.short_words.specs.Reading.{record_of};
ghost use Rattle.short_calls.specs.Calls.{ReadWords, WrittenWords, WidenedWords};
ghost use Rattle.widen.specs.Widening.{widen_of, number_widened};

use edition::Refusal;
use registers::Hsr;
use short_words::{record_of, words_of};
use widen::WidenRefusal;

// The mask and the count that a refusal carries.
// Kept: esr_calls has it too; shared, these two lines would make the short form's calls stand on the long form's.
fn editions_of(refusal: Refusal) -> [u32; 2]
    ensures { result ≡ refusal_mask refusal ∷ refusal_count refusal ∷ [] }
{
    [edition::mask(refusal), edition::count(refusal)]
}

// Reads a syndrome word.
pub fn knucklepin_hsr_read_raw(
    edition: u32,
    hsr: u32,
    syndrome: &mut [u32; 16],
    editions: &mut [u32; 2],
) -> u32
    ensures { ReadWords (read_of edition (record { 0 = hsr })) result syndrome.new editions.new }
{
    match short::read(edition, Hsr(hsr)) {
        Ok(r) => {
            *syndrome = words_of(r);
            *editions = [0, 0];
            0
        }
        Err(refusal) => {
            *syndrome = [0u32; 16];
            *editions = editions_of(refusal);
            edition::number(refusal)
        }
    }
}

// Writes a record.
pub fn knucklepin_hsr_write_raw(
    edition: u32,
    syndrome: &[u32; 16],
    hsr: &mut u32,
    editions: &mut [u32; 2],
) -> u32
    ensures { WrittenWords (write_of edition (record_of syndrome.now)) result hsr.new editions.new }
{
    match short::write(edition, record_of(*syndrome)) {
        Ok(word) => {
            *hsr = word.0;
            *editions = [0, 0];
            0
        }
        Err(refusal) => {
            *hsr = 0;
            *editions = editions_of(refusal);
            edition::number(refusal)
        }
    }
}

// The number of a refusal to change a record.
fn number(refusal: WidenRefusal) -> u32
    ensures { result ≡ number_widened (Err refusal) }
{
    match refusal {
        WidenRefusal::BadMode => 9,
        WidenRefusal::NoEdition => 5,
    }
}

// Changes a short record to a long one.
pub fn knucklepin_widen(mode: u32, from: &[u32; 16], to: &mut [u32; 16]) -> u32
    ensures { WidenedWords (widen_of mode (record_of from.now)) result to.new }
{
    match widen::widen(mode, record_of(*from)) {
        Ok(r) => {
            *to = record_words::words_of(r);
            0
        }
        Err(refusal) => {
            *to = [0u32; 16];
            number(refusal)
        }
    }
}
