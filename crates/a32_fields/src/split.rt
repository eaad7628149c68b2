// A word taken apart by the layout of its group. Nothing is judged here.
ghost use Rattle.std.specs.Prelude.{◌≡◌, cond};
ghost use Rattle.a32_fields.specs.Split.{word_transfer, extra_transfer, immediate_at, literal_at, register_at, multiple_at, offset_at};
ghost use Rattle.a32_fields.specs.Split.{word_transfer_at, extra_transfer_at, extra_at, group_at, fields_at};
ghost use Rattle.a32_fields.specs.declared.kinds.Transfer.TheVariants.{Ldrsb, Ldrsh, Ldrd, Strd};

use super::kinds::{Fields, Immediate, Literal, Multiple, Register, Transfer};
use super::transfers::loads;
use bits::{bit, field32};

fn word_transfer(b: bool, l: bool) -> Transfer
    ensures { result ≡ word_transfer b l }
{
    if b {
        if l { Transfer::Ldrb } else { Transfer::Strb }
    } else {
        if l { Transfer::Ldr } else { Transfer::Str }
    }
}

// Loads that are extended by their sign, and transfers of two registers.
fn signed_transfer(h: bool, l: bool) -> Transfer
    ensures { result ≡ cond l (cond h Ldrsh Ldrsb) (cond h Strd Ldrd) }
{
    if l {
        if h { Transfer::Ldrsh } else { Transfer::Ldrsb }
    } else {
        if h { Transfer::Strd } else { Transfer::Ldrd }
    }
}

fn extra_transfer(s: bool, h: bool, l: bool) -> Transfer
    ensures { result ≡ extra_transfer s h l }
{
    if s {
        signed_transfer(h, l)
    } else {
        if l { Transfer::Ldrh } else { Transfer::Strh }
    }
}

fn immediate_at(transfer: Transfer, imm: u32, word: u64) -> Immediate
    ensures { result ≡ immediate_at transfer imm word }
{
    Immediate {
        transfer,
        cond: field32(word, 31, 28),
        p: bit(word, 24),
        u: bit(word, 23),
        w: bit(word, 21),
        rn: field32(word, 19, 16),
        rt: field32(word, 15, 12),
        imm,
    }
}

fn literal_at(transfer: Transfer, imm: u32, word: u64) -> Literal
    ensures { result ≡ literal_at transfer imm word }
{
    Literal {
        transfer,
        cond: field32(word, 31, 28),
        u: bit(word, 23),
        rt: field32(word, 15, 12),
        imm,
    }
}

fn register_at(transfer: Transfer, word: u64) -> Register
    ensures { result ≡ register_at transfer word }
{
    Register {
        transfer,
        cond: field32(word, 31, 28),
        p: bit(word, 24),
        u: bit(word, 23),
        w: bit(word, 21),
        rn: field32(word, 19, 16),
        rt: field32(word, 15, 12),
        rm: field32(word, 3, 0),
    }
}

fn multiple_at(word: u64) -> Multiple
    ensures { result ≡ multiple_at word }
{
    Multiple {
        load: bit(word, 20),
        cond: field32(word, 31, 28),
        p: bit(word, 24),
        u: bit(word, 23),
        w: bit(word, 21),
        rn: field32(word, 19, 16),
        list: field32(word, 15, 0),
    }
}

// A load with base 15 is a literal.
fn offset_at(transfer: Transfer, imm: u32, word: u64) -> Fields
    ensures { result ≡ offset_at transfer imm word }
{
    if loads(transfer) & (field32(word, 19, 16) == 15) {
        Fields::Literal(literal_at(transfer, imm, word))
    } else {
        Fields::Immediate(immediate_at(transfer, imm, word))
    }
}

fn word_transfer_at(word: u64) -> Transfer
    ensures { result ≡ word_transfer_at word }
{
    word_transfer(bit(word, 22), bit(word, 20))
}

fn extra_transfer_at(word: u64) -> Transfer
    ensures { result ≡ extra_transfer_at word }
{
    extra_transfer(bit(word, 6), bit(word, 5), bit(word, 20))
}

// Halfwords, signed bytes and halfwords, and two registers.
fn extra_at(word: u64) -> Fields
    ensures { result ≡ extra_at word }
{
    let transfer = extra_transfer_at(word);
    if bit(word, 22) {
        offset_at(
            transfer,
            field32(word, 11, 8) * 16 + field32(word, 3, 0),
            word,
        )
    } else {
        Fields::Register(register_at(transfer, word))
    }
}

// The fields at a word's bits. A group that has none of these forms reads as a list, which makes another word.
#[tactic(auto, unfolding(crate::specs::Split::group_at))]
fn group_at(group: u32, word: u64) -> Fields
    ensures { result ≡ group_at group word }
{
    match group {
        0b000 => extra_at(word),
        0b010 => offset_at(word_transfer_at(word), field32(word, 11, 0), word),
        0b011 => Fields::Register(register_at(word_transfer_at(word), word)),
        _ => Fields::Multiple(multiple_at(word)),
    }
}

pub fn fields_at(word: u64) -> Fields
    ensures { result ≡ fields_at word }
{
    group_at(field32(word, 27, 25), word)
}
