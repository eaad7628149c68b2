// Syndrome words (ESR) for other languages: read and written, with records in sixteen words that the caller lends.
#![tactic(auto)]

ghost use Rattle.std.specs.Prelude.{[], ◌∷◌, ◌≡◌};
ghost use Rattle.edition.specs.Judge.{refusal_mask, refusal_count};
ghost use Rattle.syndrome.specs.Reading.{read_of};
ghost use Rattle.syndrome.specs.Writing.{write_of};
ghost use Rattle.record_of_words.specs.Reading.{record_of};
ghost use Rattle.esr_calls.specs.Calls.{origin_of, ReadWords, WrittenWords};

use edition::Refusal;
use record::Origin;
use record_of_words::record_of;
use record_words::words_of;
use registers::Esr;

// 0 is AArch32, and every other number AArch64.
// Kept: the C interface has the origin, the edition and the answers as numbers, and a record as sixteen words.
pub fn origin_of(origin: u32) -> Origin
    ensures { result ≡ origin_of origin }
{
    if origin == 0 {
        Origin::AArch32
    } else {
        Origin::AArch64
    }
}

// The mask and the count that a refusal carries.
// Kept: short_calls has it too; shared, these two lines would make the short form's calls stand on the long form's.
fn editions_of(refusal: Refusal) -> [u32; 2]
    ensures { result ≡ refusal_mask refusal ∷ refusal_count refusal ∷ [] }
{
    [edition::mask(refusal), edition::count(refusal)]
}

// Reads a syndrome word.
pub fn knucklepin_esr_read_raw(
    origin: u32,
    edition: u32,
    esr: u64,
    syndrome: &mut [u32; 16],
    editions: &mut [u32; 2],
) -> u32
    ensures { ReadWords (read_of (origin_of origin) edition (record { 0 = esr })) result syndrome.new editions.new }
{
    match syndrome::read(origin_of(origin), edition, Esr(esr)) {
        Ok(r) => {
            *syndrome = words_of(r);
            *editions = [0, 0];
            0
        }
        Err(refusal) => {
            *syndrome = [0u32; 16];
            *editions = editions_of(refusal);
            edition::number(refusal)
        }
    }
}

// Writes a record.
pub fn knucklepin_esr_write_raw(
    origin: u32,
    edition: u32,
    syndrome: &[u32; 16],
    esr: &mut u64,
    editions: &mut [u32; 2],
) -> u32
    ensures { WrittenWords (write_of (origin_of origin) edition (record_of syndrome.now)) result esr.new editions.new }
{
    match syndrome::write(origin_of(origin), edition, record_of(*syndrome)) {
        Ok(word) => {
            *esr = word.0;
            *editions = [0, 0];
            0
        }
        Err(refusal) => {
            *esr = 0;
            *editions = editions_of(refusal);
            edition::number(refusal)
        }
    }
}
