// Which fields some word has: a condition other than 1111, fields that fit, and nothing that the manual calls UNPREDICTABLE.
ghost use Rattle.std.specs.Prelude.{◌≡◌};
ghost use Rattle.a32_rule.specs.Rule.{back_rule, pair_rule, immediate_rule, register_rule, literal_rule, multiple_rule};
ghost use Rattle.a32_rule.specs.Legal.{legal};
ghost use Rattle.a32_rule.specs.Inner.{narrow, immediate_fits, target_rule, transferred_by};
ghost use Rattle.a32_fields.specs.declared.kinds.Fields.TheVariants as Fields;

use a32_fields::{
    Code, Fields, Immediate, Literal, Multiple, Register, Transfer, code, dual, loads,
};
use bits::bit;

// Bytes and halfwords.
fn narrow(transfer: Transfer) -> bool
    ensures { result ≡ narrow transfer }
{
    !matches!(
        transfer,
        Transfer::Ldr | Transfer::Str | Transfer::Ldrd | Transfer::Strd
    )
}

fn immediate_fits(code: Code, imm: u32) -> bool
    ensures { result ≡ immediate_fits code imm }
{
    match code {
        Code::Word { .. } => imm < 4096,
        Code::Extra { .. } => imm < 256,
    }
}

// Of two registers the first is even, and the second isn't 15.
fn pair_rule(rt: u32) -> bool
    ensures { result ≡ pair_rule rt }
{
    (rt % 2 == 0) & !(rt == 14)
}

// What a transfer asks of Rt.
fn target_rule(transfer: Transfer, rt: u32) -> bool
    ensures { result ≡ target_rule transfer rt }
{
    if dual(transfer) {
        pair_rule(rt)
    } else {
        if narrow(transfer) { !(rt == 15) } else { true }
    }
}

// A base that is written back is neither 15 nor transferred.
fn back_rule(transfer: Transfer, back: bool, rn: u32, rt: u32) -> bool
    ensures { result ≡ back_rule back rn (transferred_by transfer rt) }
{
    let second = dual(transfer) & (rn as u64 == rt as u64 + 1);
    !(back & ((rn == 15) | (rn == rt) | second))
}

fn immediate_rule(transfer: Transfer, back: bool, rn: u32, rt: u32) -> bool
    ensures { result ≡ immediate_rule transfer back rn rt }
{
    target_rule(transfer, rt) & !(loads(transfer) & (rn == 15)) & back_rule(transfer, back, rn, rt)
}

fn register_rule(transfer: Transfer, back: bool, rn: u32, rt: u32, rm: u32) -> bool
    ensures { result ≡ register_rule transfer back rn rt rm }
{
    let loaded = (rm == rt) | (rm as u64 == rt as u64 + 1);
    !(dual(transfer) & loads(transfer) & loaded)
        & target_rule(transfer, rt)
        & !(rm == 15)
        & back_rule(transfer, back, rn, rt)
}

fn literal_rule(transfer: Transfer, rt: u32) -> bool
    ensures { result ≡ literal_rule transfer rt }
{
    loads(transfer) & target_rule(transfer, rt)
}

fn multiple_rule(load: bool, w: bool, rn: u32, list: u32) -> bool
    ensures { result ≡ multiple_rule load w rn list }
{
    !(rn == 15) & !(list == 0) & !(load & w & bit(list as u64, rn))
}

#[tactic(auto, using(crate::proofs::Fits::legal_immediate))]
fn immediate(r: Immediate) -> bool
    ensures { result ≡ legal (Fields.Immediate r) }
{
    let transfer = r.transfer;
    (r.cond < 15)
        & (r.rn < 16)
        & (r.rt < 16)
        & immediate_fits(code(transfer), r.imm)
        & ((r.p | !r.w) & immediate_rule(transfer, !r.p | r.w, r.rn, r.rt))
}

#[tactic(auto, using(crate::proofs::Fits::legal_register))]
fn register(r: Register) -> bool
    ensures { result ≡ legal (Fields.Register r) }
{
    let transfer = r.transfer;
    (r.cond < 15)
        & (r.rn < 16)
        & (r.rt < 16)
        & (r.rm < 16)
        & ((r.p | !r.w) & register_rule(transfer, !r.p | r.w, r.rn, r.rt, r.rm))
}

#[tactic(auto, using(crate::proofs::Fits::legal_literal))]
fn literal(r: Literal) -> bool
    ensures { result ≡ legal (Fields.Literal r) }
{
    let transfer = r.transfer;
    (r.cond < 15)
        & (r.rt < 16)
        & immediate_fits(code(transfer), r.imm)
        & literal_rule(transfer, r.rt)
}

#[tactic(auto, using(crate::proofs::Fits::legal_multiple))]
fn multiple(r: Multiple) -> bool
    ensures { result ≡ legal (Fields.Multiple r) }
{
    (r.cond < 15) & (r.rn < 16) & (r.list < 0x1_0000) & multiple_rule(r.load, r.w, r.rn, r.list)
}

pub(crate) fn legal(f: Fields) -> bool
    ensures { result ≡ legal f }
{
    match f {
        Fields::Immediate(r) => immediate(r),
        Fields::Register(r) => register(r),
        Fields::Literal(r) => literal(r),
        Fields::Multiple(r) => multiple(r),
    }
}
