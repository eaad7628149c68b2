// The word of an A32 load or store from its form and its fields, for other languages: ten of the sixteen words by which one is described.
#![tactic(auto)]

ghost use Rattle.std.specs.Prelude.{◌≡◌};
ghost use Rattle.encode_calls.specs.Calls.{transfer_of, immediate_of, register_of, literal_of, multiple_of, fields_of, encoded_of};
ghost use Rattle.encode_calls.specs.Calls.{EncodedWord};
ghost use Rattle.a32_rule.specs.Answer.{number_encoded};

use a32_fields::{Fields, Immediate, Literal, Multiple, Register, Transfer};

// The transfer of a number below 10.
// Kept: a TryFrom would answer a refusal that no caller can meet, since `fields_of` tests the number first.
#[tactic(auto, unfolding(crate::specs::Calls::transfer_of))]
fn transfer_of(number: u32) -> Transfer
    ensures { result ≡ transfer_of number }
{
    match number {
        0 => Transfer::Ldr,
        1 => Transfer::Str,
        2 => Transfer::Ldrb,
        3 => Transfer::Strb,
        4 => Transfer::Ldrh,
        5 => Transfer::Strh,
        6 => Transfer::Ldrsb,
        7 => Transfer::Ldrsh,
        8 => Transfer::Ldrd,
        _ => Transfer::Strd,
    }
}

fn immediate_of(transfer: Transfer, words: [u32; 16]) -> Immediate
    ensures { result ≡ immediate_of transfer words }
{
    Immediate {
        transfer,
        cond: words[1],
        p: !(words[2] == 0),
        u: !(words[3] == 0),
        w: !(words[4] == 0),
        rn: words[5],
        rt: words[6],
        imm: words[7],
    }
}

fn register_of(transfer: Transfer, words: [u32; 16]) -> Register
    ensures { result ≡ register_of transfer words }
{
    Register {
        transfer,
        cond: words[1],
        p: !(words[2] == 0),
        u: !(words[3] == 0),
        w: !(words[4] == 0),
        rn: words[5],
        rt: words[6],
        rm: words[8],
    }
}

fn literal_of(transfer: Transfer, words: [u32; 16]) -> Literal
    ensures { result ≡ literal_of transfer words }
{
    Literal {
        transfer,
        cond: words[1],
        u: !(words[3] == 0),
        rt: words[6],
        imm: words[7],
    }
}

fn multiple_of(load: bool, words: [u32; 16]) -> Multiple
    ensures { result ≡ multiple_of load words }
{
    Multiple {
        load,
        cond: words[1],
        p: !(words[2] == 0),
        u: !(words[3] == 0),
        w: !(words[4] == 0),
        rn: words[5],
        list: words[9],
    }
}

// The fields that the words hold, by the form's number.
#[tactic(auto, unfolding(crate::specs::Calls::fields_of))]
fn fields_of(words: [u32; 16]) -> Option<Fields>
    ensures { result ≡ fields_of words }
{
    let form = words[0];
    if form < 10 {
        return Some(Fields::Immediate(immediate_of(transfer_of(form), words)));
    }
    if (16 <= form) & (form < 26) {
        return Some(Fields::Register(register_of(transfer_of(form % 16), words)));
    }
    if (32 <= form) & (form < 42) {
        return Some(Fields::Literal(literal_of(transfer_of(form % 16), words)));
    }
    if (form == 48) | (form == 49) {
        return Some(Fields::Multiple(multiple_of(form == 49, words)));
    }
    None
}

fn encoded(asked: Option<Fields>) -> Option<u32>
    ensures { result ≡ encoded_of asked }
{
    a32_rule::encode(asked?)
}

fn number_in(answer: Option<u32>) -> u32
    ensures { result ≡ number_encoded answer }
{
    if answer.is_some() { 0 } else { 19 }
}

// The word that the fields make.
pub fn knucklepin_a32_encode(access: &[u32; 16], word: &mut u32) -> u32
    ensures { EncodedWord access.now result word.new }
{
    let answer = encoded(fields_of(*access));
    *word = answer.unwrap_or(0);
    number_in(answer)
}
