// The readers and writers for programs in other languages: each answers with one number.
#![tactic(auto)]

ghost use Rattle.std.specs.Prelude.{◌≡◌};
ghost use Rattle.record.specs.declared.origin.Origin.{Origin};
ghost use Rattle.packed_calls.specs.Packed.{packed_refusal, packed_read, rewritten};
ghost use Rattle.packed_calls.specs.Short.{packed_short_read, rewritten_short};
ghost use Rattle.packed_calls.specs.A32.{a32_form, rewritten_a32};

use a32_words::form_number;
use edition::Refusal;
use record::Origin;
use registers::{Esr, Hsr};

// What a call answers in place of a word that it refuses: no word that is written has its upper half set.
const REFUSED: u64 = 0xFFFF_FFFF_FFFF_FFFF;

// A refusal as one number: its own number, from bit 8 its mask, from bit 24 its number of ones.
// Kept: the C interface hands a refusal out so.
fn packed(refusal: Refusal) -> u64
    ensures { result ≡ packed_refusal refusal }
{
    edition::number(refusal) as u64
        + edition::mask(refusal) as u64 * 0x100
        + edition::count(refusal) as u64 * 0x100_0000
}

// What reading a syndrome word answers: 0 where it is taken, else the refusal as one number.
fn read(origin: Origin, edition: u32, word: u64) -> u64
    ensures { result ≡ packed_read origin edition word }
{
    syndrome::read(origin, edition, Esr(word)).map_or_else(packed, |_| 0)
}

// What reading a syndrome word in one edition and writing the record in another gives: the word, or all ones where either refuses.
fn rewrite(origin: Origin, reader: u32, writer: u32, word: u64) -> u64
    ensures { result ≡ rewritten origin reader writer word }
{
    syndrome::read(origin, reader, Esr(word))
        .and_then(move |r| syndrome::write(origin, writer, r))
        .map_or(REFUSED, |esr| esr.0)
}

// Reads a syndrome word of a trap from AArch32.
pub fn knucklepin_read(edition: u32, word: u64) -> u64
    ensures { result ≡ packed_read Origin.AArch32 edition word }
{
    read(Origin::AArch32, edition, word)
}

// Reads a syndrome word of a trap from AArch32 in one edition and writes the record in another.
pub fn knucklepin_rewrite(reader: u32, writer: u32, word: u64) -> u64
    ensures { result ≡ rewritten Origin.AArch32 reader writer word }
{
    rewrite(Origin::AArch32, reader, writer, word)
}

// The same of a trap from AArch64.
pub fn knucklepin_aarch64_read(edition: u32, word: u64) -> u64
    ensures { result ≡ packed_read Origin.AArch64 edition word }
{
    read(Origin::AArch64, edition, word)
}

// The same of a trap from AArch64.
pub fn knucklepin_aarch64_rewrite(reader: u32, writer: u32, word: u64) -> u64
    ensures { result ≡ rewritten Origin.AArch64 reader writer word }
{
    rewrite(Origin::AArch64, reader, writer, word)
}

// Reads a word of the short form: 0 where it is taken, else the refusal as one number.
pub fn knucklepin_short_read(edition: u32, word: u32) -> u64
    ensures { result ≡ packed_short_read edition word }
{
    short::read(edition, Hsr(word)).map_or_else(packed, |_| 0)
}

// Reads a word of the short form in one edition and writes the record in another: the word, or all ones where either refuses.
pub fn knucklepin_short_rewrite(reader: u32, writer: u32, word: u32) -> u64
    ensures { result ≡ rewritten_short reader writer word }
{
    short::read(reader, Hsr(word))
        .and_then(move |r| short::write(writer, r))
        .map_or(REFUSED, |hsr| hsr.0 as u64)
}

// The form of a word that is an A32 load or store: its transfer's number, and 16 more with a register, 32 for a literal; 48 for STM and 49
// for LDM. All ones where the word is none.
pub fn knucklepin_a32_form(word: u32) -> u64
    ensures { result ≡ a32_form word }
{
    a32_rule::decode(word).map_or(REFUSED, |f| form_number(f) as u64)
}

// Reads an A32 load or store and writes its fields: the word, or all ones where either refuses.
pub fn knucklepin_a32_rewrite(word: u32) -> u64
    ensures { result ≡ rewritten_a32 word }
{
    a32_rule::decode(word)
        .and_then(|f| a32_rule::encode(f))
        .map_or(REFUSED, |instruction| instruction as u64)
}
