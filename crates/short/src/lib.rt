// Syndrome words of the short form (HSR): read and written in each short edition.
//
// A word has one record, whatever the edition: what stands at the bits of its class. A record has one set of editions, its mask. An
// edition only asks whether its bit stands in the mask.
#![tactic(auto)]

ghost use Rattle.std.specs.Prelude.{◌≡◌};
ghost use Rattle.short_rule.specs.Edition.{mask_of};
ghost use Rattle.short.specs.Inner.{makes};
ghost use Rattle.short.specs.Tests.{word_il};
ghost use Rattle.short.specs.Reading.{Reading};
ghost use Rattle.short.specs.Writing.{Writing};
ghost use Rattle.short.specs.Carry.{Carrying, Rewriting};

use edition::Refusal;
use registers::Hsr;
use short_record::Record;

// The editions that have a record which is to make the word: none where some bit of the word is not the record's.
fn word_editions(r: Record, word: u64) -> u32
    ensures { result ≡ mask_of (λ e. makes e r word) }
{
    if short_layout::joined(r) == word {
        short_rule::editions(r)
    } else {
        0
    }
}

// Whether IL is 1 where the word's class and ISV ask for it.
fn word_il(word: u64) -> bool
    ensures { result ≡ word_il word }
{
    short_rule::il_rule(
        bits::field32(word, 31, 26),
        bits::bit(word, 24),
        bits::bit(word, 25),
    )
}

// Reads a word in a short edition.
pub fn read(edition: u32, hsr: Hsr) -> Result<Record, Refusal>
    ensures { Reading edition hsr result }
{
    let word = hsr.0 as u64;
    if !short_rule::known(edition) {
        return Err(Refusal::UnknownEdition);
    }
    if !short_record::is_class(bits::field32(word, 31, 26)) {
        return Err(Refusal::UnknownClass);
    }
    if !word_il(word) {
        return Err(Refusal::ShortInstruction);
    }
    let r = short_record::record_at(hsr);
    edition::judge(edition, word_editions(r, word))?;
    Ok(r)
}

// Writes a record in a short edition.
pub fn write(edition: u32, r: Record) -> Result<Hsr, Refusal>
    ensures { Writing edition r result }
{
    let h = short_record::head(r);
    if !short_rule::known(edition) {
        return Err(Refusal::UnknownEdition);
    }
    if !h.own {
        return Err(Refusal::NoEdition);
    }
    if !short_rule::il_rule(h.class, h.isv, h.il) {
        return Err(Refusal::ShortInstruction);
    }
    edition::judge(edition, short_rule::editions(r))?;
    Ok(Hsr(short_layout::joined(r) as u32))
}

// Demand 2 beside running code: reads a word and writes its record again. A word that is taken comes back with the same 32 bits.
pub fn rewrite(edition: u32, hsr: Hsr) -> Result<Hsr, Refusal>
    ensures { Rewriting edition hsr result }
{
    let r = read(edition, hsr)?;
    write(edition, r)
}

// Demand 3 beside running code: writes a record in one edition and reads the word in another. The very record comes back where the reader's
// edition has it, else refusal 6. The answer is the writer's refusal, or what the reader answers.
pub fn carry(writer: u32, reader: u32, r: Record) -> Result<Result<Record, Refusal>, Refusal>
    ensures { Carrying writer reader r result }
{
    let hsr = write(writer, r)?;
    Ok(read(reader, hsr))
}
