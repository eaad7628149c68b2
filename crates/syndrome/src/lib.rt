// Syndrome words (ESR): read and written in each edition, from the origin that the caller says.
//
// A word has one record, whatever the edition: what stands at the bits of its class. A record has one set of editions, its mask. An
// edition only asks whether its bit stands in the mask.
#![tactic(auto)]

ghost use Rattle.std.specs.Prelude.{◌≡◌, true};
ghost use Rattle.edition.specs.Mask.{mask_of};
ghost use Rattle.record.specs.Split.{record_at};
ghost use Rattle.syndrome.specs.Inner.{makes};
ghost use Rattle.syndrome.specs.Tests.{class_known, word_il};
ghost use Rattle.syndrome.specs.Reading.{Reading};
ghost use Rattle.syndrome.specs.Writing.{Writing};
ghost use Rattle.syndrome.specs.Carry.{Carrying, Rewriting};

mod whole;

use edition::Refusal;
use record::{Origin, Record};
use registers::Esr;
use whole::whole;

// The editions that have the record at the word's bits, where the word's class and IL are right: none where some bit of the word is not the
// record's.
fn word_editions(origin: Origin, r: Record, word: u64) -> u32
    requires { (r ≡ record_at word) × (class_known origin word ≡ true) × (word_il origin word ≡ true) }
    ensures { result ≡ mask_of (λ e. makes origin e r word) }
{
    if whole(r, word) {
        rule::allowed(origin, r)
    } else {
        0
    }
}

// Whether IL is 1 where the origin and the word's class and ISV ask for it.
fn word_il(origin: Origin, word: u64) -> bool
    ensures { result ≡ word_il origin word }
{
    rule::il_rule(
        origin,
        bits::field32(word, 31, 26),
        bits::bit(word, 24),
        bits::bit(word, 25),
    )
}

// Reads a syndrome word in an edition.
// Kept: crate short has these four calls too, of its own tests and types. Their laws stand once, in crate form; a trait round bodies of two
// lines would be no plainer.
#[tactic(auto, using(crate::proofs::Promises::reads, crate::proofs::Steps::read_unknown, crate::proofs::Steps::read_upper, crate::proofs::Steps::read_class, crate::proofs::Steps::read_short))]
pub fn read(origin: Origin, edition: u32, esr: Esr) -> Result<Record, Refusal>
    ensures { Reading origin edition esr result }
{
    let word = esr.0;
    if !edition::known(edition) {
        return Err(Refusal::UnknownEdition);
    }
    if bits::field(word, 63, 32) != 0 {
        return Err(Refusal::UpperHalf);
    }
    if !record::is_class(origin, bits::field32(word, 31, 26)) {
        return Err(Refusal::UnknownClass);
    }
    if !word_il(origin, word) {
        return Err(Refusal::ShortInstruction);
    }
    let r = record::record_at(esr);
    edition::judge(edition, word_editions(origin, r, word))?;
    Ok(r)
}

// Writes a record in an edition.
#[tactic(auto, using(crate::proofs::Promises::writes, crate::proofs::Steps::write_unknown, crate::proofs::Steps::write_class, crate::proofs::Steps::write_short))]
pub fn write(origin: Origin, edition: u32, r: Record) -> Result<Esr, Refusal>
    ensures { Writing origin edition r result }
{
    let h = record::head(r);
    if !edition::known(edition) {
        return Err(Refusal::UnknownEdition);
    }
    if !(h.own & record::is_class(origin, h.class)) {
        return Err(Refusal::NoEdition);
    }
    if !rule::il_rule(origin, h.class, h.isv, h.il) {
        return Err(Refusal::ShortInstruction);
    }
    edition::judge(edition, rule::allowed(origin, r))?;
    Ok(Esr(layout::joined(r)))
}

// Demand 2 beside running code: reads a word and writes its record again. A word that is taken comes back with the same 64 bits.
pub fn rewrite(origin: Origin, edition: u32, esr: Esr) -> Result<Esr, Refusal>
    ensures { Rewriting origin edition esr result }
{
    let r = read(origin, edition, esr)?;
    write(origin, edition, r)
}

// Demand 3 beside running code: writes a record in one edition and reads the word in another, from one origin. The very record comes back
// where the reader's edition has it, else refusal 6. The answer is the writer's refusal, or what the reader answers.
pub fn carry(
    origin: Origin,
    writer: u32,
    reader: u32,
    r: Record,
) -> Result<Result<Record, Refusal>, Refusal>
    ensures { Carrying origin writer reader r result }
{
    let esr = write(origin, writer, r)?;
    Ok(read(origin, reader, esr))
}
