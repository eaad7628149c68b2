// A32 loads and stores as words: the number of a form, and what an access does as sixteen words.
#![tactic(auto)]

ghost use Rattle.std.specs.Prelude.{◌≡◌};
ghost use Rattle.a32_words.specs.Words.{transfer_number, form_number, immediate_after, register_after, literal_after, multiple_after};
ghost use Rattle.a32_words.specs.Words.{fields_after, shape_words, access_words};

use a32_access::Access;
use a32_fields::{Fields, Immediate, Literal, Multiple, Register, Transfer};
use a32_transfer::{Shape, shape_of};
use signed::sum;

// Kept: the numbers are the C interface's, and a cast of the enum would tie them to the order of its lines.
fn transfer_number(transfer: Transfer) -> u32
    ensures { result ≡ transfer_number transfer }
{
    match transfer {
        Transfer::Ldr => 0,
        Transfer::Str => 1,
        Transfer::Ldrb => 2,
        Transfer::Strb => 3,
        Transfer::Ldrh => 4,
        Transfer::Strh => 5,
        Transfer::Ldrsb => 6,
        Transfer::Ldrsh => 7,
        Transfer::Ldrd => 8,
        Transfer::Strd => 9,
    }
}

// The number of a form: its transfer's, and 16 more with a register, 32 for a literal; 48 for STM and 49 for LDM.
pub fn form_number(f: Fields) -> u32
    ensures { result ≡ form_number f }
{
    match f {
        Fields::Immediate(r) => transfer_number(r.transfer),
        Fields::Register(r) => 16 + transfer_number(r.transfer),
        Fields::Literal(r) => 32 + transfer_number(r.transfer),
        Fields::Multiple(r) => { if r.load { 49 } else { 48 } }
    }
}

// COND, P, U, W, Rn, Rt, the immediate, Rm and the list; what a form lacks is 0.
fn immediate_after(r: Immediate) -> [u32; 9]
    ensures { result ≡ immediate_after r }
{
    [
        r.cond, r.p as u32, r.u as u32, r.w as u32, r.rn, r.rt, r.imm, 0, 0,
    ]
}

fn register_after(r: Register) -> [u32; 9]
    ensures { result ≡ register_after r }
{
    [
        r.cond, r.p as u32, r.u as u32, r.w as u32, r.rn, r.rt, 0, r.rm, 0,
    ]
}

fn literal_after(r: Literal) -> [u32; 9]
    ensures { result ≡ literal_after r }
{
    [r.cond, 0, r.u as u32, 0, 0, r.rt, r.imm, 0, 0]
}

fn multiple_after(r: Multiple) -> [u32; 9]
    ensures { result ≡ multiple_after r }
{
    [
        r.cond, r.p as u32, r.u as u32, r.w as u32, r.rn, 0, 0, 0, r.list,
    ]
}

fn fields_after(f: Fields) -> [u32; 9]
    ensures { result ≡ fields_after f }
{
    match f {
        Fields::Immediate(r) => immediate_after(r),
        Fields::Register(r) => register_after(r),
        Fields::Literal(r) => literal_after(r),
        Fields::Multiple(r) => multiple_after(r),
    }
}

fn shape_words(shape: Shape) -> [u32; 3]
    ensures { result ≡ shape_words shape }
{
    [shape.load as u32, shape.sas, shape.sse as u32]
}

// The form, its fields, what the instruction moves, the number of its registers, the first address, and the change of the base modulo 2^32.
#[tactic(auto, unfolding(crate::specs::Words::access_words))]
pub fn access_words(access: Access) -> [u32; 16]
    ensures { result ≡ access_words access }
{
    let f = access.fields;
    let after = fields_after(f);
    let moved = shape_words(shape_of(f));
    let mut words = [0u32; 16];
    words[0] = form_number(f);
    for i in 0..9 {
        words[1 + i] = after[i];
    }
    for i in 0..3 {
        words[10 + i] = moved[i];
    }
    words[13] = access.count;
    words[14] = access.address;
    words[15] = sum(0, access.change);
    words
}
