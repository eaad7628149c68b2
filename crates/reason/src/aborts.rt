// The rules of aborts, as numbers: that of the first rule that is broken, else that of the rest.
ghost use Rattle.std.specs.Prelude.{◌≡◌, cond, ◌||◌, [], ◌∷◌};
ghost use Rattle.bits.specs.Decide.{needs, decide};
ghost use Rattle.record.specs.declared.kinds.Record.{Record};
ghost use Rattle.fault_code.specs.Code.{everywhere, with_lpa2, data_only_code};
ghost use Rattle.layout_rule.specs.Rule.{no_syndrome_rule, aarch32_access};
ghost use Rattle.reason.specs.Reason.{some_code, some_set, some_syndrome, abort_tests, access_tests, rule_tests};

use record::{DataAbort, InstructionAbort};

// The number of a test that fails, else that of the rest.
pub fn unless(passes: bool, number: u32, rest: u32) -> u32
    ensures { result ≡ cond passes rest number }
{
    if passes { rest } else { number }
}

// Whether some edition has a fault code of either abort.
fn some_code(code: u32) -> bool
    ensures { result ≡ some_code code }
{
    everywhere(code) | with_lpa2(code) | matches!(code, 0x18 | 0x1B..=0x1F | 0x31)
}

fn everywhere(code: u32) -> bool
    ensures { result ≡ everywhere code }
{
    matches!(code, 0x00..=0x07 | 0x09..=0x0B | 0x0D..=0x10 | 0x14..=0x17 | 0x30)
}

fn with_lpa2(code: u32) -> bool
    ensures { result ≡ with_lpa2 code }
{
    matches!(code, 0x08 | 0x0C | 0x13 | 0x29 | 0x2B)
}

// A code that data aborts alone have.
fn data_only(code: u32) -> bool
    ensures { result ≡ data_only_code code }
{
    matches!(code, 0x21 | 0x34 | 0x35)
}

fn some_set(set: u32, code: u32) -> bool
    ensures { result ≡ some_set set code }
{
    (set == 0) | (code == 0x10) & matches!(set, 2 | 3)
}

pub fn some_syndrome(isv: bool, code: u32) -> bool
    ensures { result ≡ some_syndrome isv code }
{
    !isv | iss::mmu_fault(code) | matches!(code, 0x13..=0x17)
}

// What both aborts ask.
pub fn abort(fnv: bool, ea: bool, s1ptw: bool, code: u32, rest: u32) -> u32
    ensures { result ≡ decide (abort_tests fnv ea s1ptw code []) rest }
{
    let walk = unless(iss::walk_rule(s1ptw, code), 9, rest);
    let external = unless(iss::external_rule(ea, code), 8, walk);
    unless(!fnv | (code == 0x10), 7, external)
}

fn no_syndrome(r: DataAbort) -> bool
    ensures { result ≡ no_syndrome_rule r }
{
    (r.sas == 0) & !r.sse & (r.srt == 0) & !r.sf & !r.ar
}

fn aarch32_access(r: DataAbort) -> bool
    ensures { result ≡ aarch32_access r }
{
    !r.sf & (r.sas < 3) & !(r.srt == 15) & !(r.srt == 31)
}

// What a data abort says of the access.
fn access(r: DataAbort, rest: u32) -> u32
    ensures { result ≡ decide (access_tests r []) rest }
{
    let maintenance = unless(iss::maintenance_rule(r.cm, r.wnr), 14, rest);
    let extension = unless(iss::extension_rule(r.sse, r.sas, r.wnr), 13, maintenance);
    let own = unless(!r.isv | (!r.cm & !r.s1ptw), 12, extension);
    let register = unless(!r.isv | aarch32_access(r), 11, own);
    unless(r.isv | no_syndrome(r), 10, register)
}

pub(crate) fn instruction_abort(r: InstructionAbort) -> u32
    ensures { result ≡ decide (rule_tests (Record.InstructionAbort r)) 0 }
{
    let set = unless(some_set(r.set, r.code), 18, 0);
    let code = unless(some_code(r.code), 17, set);
    abort(r.fnv, r.ea, r.s1ptw, r.code, code)
}

pub(crate) fn data_abort(r: DataAbort) -> u32
    ensures { result ≡ decide (rule_tests (Record.DataAbort r)) 0 }
{
    let syndrome = unless(some_syndrome(r.isv, r.code), 19, 0);
    let set = unless(some_set(r.set, r.code), 18, syndrome);
    let code = unless(some_code(r.code) | data_only(r.code), 17, set);
    let told = access(r, code);
    abort(r.fnv, r.ea, r.s1ptw, r.code, told)
}
