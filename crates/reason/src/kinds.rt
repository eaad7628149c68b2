// The rules by kind of record, as numbers: 0 where a record breaks none. The public ones are of kinds that the short form has too.
ghost use Rattle.std.specs.Prelude.{◌≡◌, [], ◌∷◌};
ghost use Rattle.bits.specs.Decide.{decide};
ghost use Rattle.record.specs.declared.kinds.Record.{Record};
ghost use Rattle.reason.specs.Reason.{condition_test, transfer_tests, ldc_tests, call_tests, smc_tests, rule_tests};

use super::aborts::{data_abort, instruction_abort, unless};
use record::{Call, Record, SError, Smc, Step, Watchpoint};

pub fn condition(cv: bool, cond: u32, rest: u32) -> u32
    ensures { result ≡ decide (condition_test cv cond ∷ []) rest }
{
    unless(iss::condition_rule(cv, cond), 2, rest)
}

// A transfer between a register and a coprocessor.
pub fn transfer(class: u32, cv: bool, cond: u32, direction: bool) -> u32
    ensures { result ≡ decide (transfer_tests class cv cond direction) 0 }
{
    let rest = unless(iss::direction_rule(class, direction), 3, 0);
    condition(cv, cond, rest)
}

pub fn ldc(cv: bool, cond: u32, am: u32, direction: bool) -> u32
    ensures { result ≡ decide (ldc_tests cv cond am direction) 0 }
{
    let addressing = unless(iss::addressing_rule(am, direction), 4, 0);
    condition(cv, cond, addressing)
}

pub fn call(r: Call) -> u32
    ensures { result ≡ decide (call_tests r) 0 }
{
    unless(iss::immediate_rule(r.il, r.imm16), 5, 0)
}

pub fn smc(r: Smc) -> u32
    ensures { result ≡ decide (smc_tests r) 0 }
{
    let passed = unless(iss::passed_rule(r.ccknownpass, r.cv, r.cond), 6, 0);
    condition(r.cv, r.cond, passed)
}

fn step(r: Step) -> u32
    ensures { result ≡ decide (rule_tests (Record.Step r)) 0 }
{
    unless(!r.ex | r.isv, 15, 0)
}

fn watchpoint(r: Watchpoint) -> u32
    ensures { result ≡ decide (rule_tests (Record.Watchpoint r)) 0 }
{
    unless(iss::maintenance_rule(r.cm, r.wnr), 14, 0)
}

fn serror(r: SError) -> u32
    ensures { result ≡ decide (rule_tests (Record.SError r)) 0 }
{
    unless(
        (r.code == 0) & (r.aet == 0) & !r.ea | (r.code == 0x11) & matches!(r.aet, 0..=3 | 6),
        16,
        0,
    )
}

// The first rule that a record breaks.
pub(crate) fn rules(r: Record) -> u32
    ensures { result ≡ decide (rule_tests r) 0 }
{
    match r {
        Record::Plain(_) => 0,
        Record::Wfx(x) => condition(x.cv, x.cond, 0),
        Record::Mcr(x) => transfer(x.class, x.cv, x.cond, x.direction),
        Record::Mcrr(x) => transfer(x.class, x.cv, x.cond, x.direction),
        Record::Ldc(x) => ldc(x.cv, x.cond, x.am, x.direction),
        Record::Simd(x) => condition(x.cv, x.cond, 0),
        Record::Call(x) => call(x),
        Record::Smc(x) => smc(x),
        Record::InstructionAbort(x) => instruction_abort(x),
        Record::DataAbort(x) => data_abort(x),
        Record::Debug(_) => 0,
        Record::Step(x) => step(x),
        Record::Watchpoint(x) => watchpoint(x),
        Record::SError(x) => serror(x),
        Record::System(_) => 0,
    }
}
