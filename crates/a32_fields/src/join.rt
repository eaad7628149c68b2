// Fields put together into a word, each cut to its bits. Nothing is judged here.
ghost use Rattle.std.specs.Prelude.{◌≡◌, []};
ghost use Rattle.bits.specs.Inner.{joined_from};
ghost use Rattle.a32_fields.specs.Layout.{head, offset_fields, index_fields, immediate_fields, literal_fields, register_fields};
ghost use Rattle.a32_fields.specs.Layout.{multiple_fields, fields_of};

use super::kinds::{Code, Fields, Immediate, Literal, Multiple, Register};
use super::transfers::code;
use bits::{flag, place};

// What every form has.
fn head(cond: u32, group: u32, p: bool, u: bool, bit22: bool, w: bool, l: bool, rn: u32) -> u64
    ensures { result ≡ joined_from 0 (head cond group p u bit22 w l rn []) }
{
    place(cond, 31, 28)
        | place(group, 27, 25)
        | flag(p, 24)
        | flag(u, 23)
        | flag(bit22, 22)
        | flag(w, 21)
        | flag(l, 20)
        | place(rn, 19, 16)
}

fn offset(code: Code, cond: u32, p: bool, u: bool, w: bool, rn: u32, rt: u32, imm: u32) -> u64
    ensures { result ≡ joined_from 0 (offset_fields code cond p u w rn rt imm) }
{
    match code {
        Code::Word { b, l } => {
            head(cond, 0b010, p, u, b, w, l, rn) | place(rt, 15, 12) | place(imm, 11, 0)
        }
        Code::Extra { s, h, l } => {
            head(cond, 0b000, p, u, true, w, l, rn)
                | place(rt, 15, 12)
                | place(imm / 16, 11, 8)
                | flag(true, 7)
                | flag(s, 6)
                | flag(h, 5)
                | flag(true, 4)
                | place(imm % 16, 3, 0)
        }
    }
}

fn index(code: Code, cond: u32, p: bool, u: bool, w: bool, rn: u32, rt: u32, rm: u32) -> u64
    ensures { result ≡ joined_from 0 (index_fields code cond p u w rn rt rm) }
{
    match code {
        Code::Word { b, l } => {
            head(cond, 0b011, p, u, b, w, l, rn) | place(rt, 15, 12) | place(rm, 3, 0)
        }
        Code::Extra { s, h, l } => {
            head(cond, 0b000, p, u, false, w, l, rn)
                | place(rt, 15, 12)
                | flag(true, 7)
                | flag(s, 6)
                | flag(h, 5)
                | flag(true, 4)
                | place(rm, 3, 0)
        }
    }
}

fn immediate(r: Immediate) -> u64
    ensures { result ≡ joined_from 0 (immediate_fields r) }
{
    let transfer = r.transfer;
    offset(code(transfer), r.cond, r.p, r.u, r.w, r.rn, r.rt, r.imm)
}

fn literal(r: Literal) -> u64
    ensures { result ≡ joined_from 0 (literal_fields r) }
{
    let transfer = r.transfer;
    offset(code(transfer), r.cond, true, r.u, false, 15, r.rt, r.imm)
}

fn register(r: Register) -> u64
    ensures { result ≡ joined_from 0 (register_fields r) }
{
    let transfer = r.transfer;
    index(code(transfer), r.cond, r.p, r.u, r.w, r.rn, r.rt, r.rm)
}

fn multiple(r: Multiple) -> u64
    ensures { result ≡ joined_from 0 (multiple_fields r) }
{
    head(r.cond, 0b100, r.p, r.u, false, r.w, r.load, r.rn) | place(r.list, 15, 0)
}

// Where the fields fit, this is the word of their layout.
pub fn joined(f: Fields) -> u64
    ensures { result ≡ joined_from 0 (fields_of f) }
{
    match f {
        Fields::Immediate(r) => immediate(r),
        Fields::Register(r) => register(r),
        Fields::Literal(r) => literal(r),
        Fields::Multiple(r) => multiple(r),
    }
}
