// Why no short edition has a word of the short form: the number of the first rule that the word breaks, 0 where it breaks none. What each
// number says in words is in crate `names`.
#![tactic(auto)]

ghost use Rattle.std.specs.Prelude.{◌≡◌};
ghost use Rattle.bits.specs.Decide.{decide};
ghost use Rattle.short_record.specs.declared.kinds.Record.{Record};
ghost use Rattle.short_reason.specs.Reason.{rule_tests, why_of};

use reason::aborts::unless;
use reason::kinds::{call, condition, ldc, smc, transfer};
use registers::Hsr;
use short_record::{Record, Simd};
use short_rule::coproc_rule;

mod faults;

fn simd(r: Simd) -> u32
    ensures { result ≡ decide (rule_tests (Record.Simd r)) 0 }
{
    let coproc = unless(coproc_rule(r.ta, r.coproc), 21, 0);
    condition(r.cv, r.cond, coproc)
}

// The first rule that a record breaks.
fn rules(r: Record) -> u32
    ensures { result ≡ decide (rule_tests r) 0 }
{
    match r {
        Record::Plain(_) => 0,
        Record::Wfx(x) => condition(x.cv, x.cond, 0),
        Record::Mcr(x) => transfer(x.class, x.cv, x.cond, x.direction),
        Record::Mcrr(x) => transfer(x.class, x.cv, x.cond, x.direction),
        Record::Ldc(x) => ldc(x.cv, x.cond, x.am, x.direction),
        Record::Simd(x) => simd(x),
        Record::Call(x) => call(x),
        Record::Smc(x) => smc(x),
        Record::InstructionAbort(x) => faults::instruction_abort(x),
        Record::DataAbort(x) => faults::data_abort(x),
    }
}

// The first rule that a word breaks.
// Kept: a number and no enum, by the clause why_of; names' list of reasons has each rule's words at it.
pub fn why(hsr: Hsr) -> u32
    ensures { result ≡ why_of hsr.0 }
{
    let word = hsr.0 as u64;
    let r = short_record::record_at(hsr);
    let rule = rules(r);
    unless(short_layout::joined(r) == word, 1, rule)
}
