// The rules of aborts, as numbers: that of the first rule that is broken, else that of the rest.
ghost use Rattle.std.specs.Prelude.{◌≡◌, []};
ghost use Rattle.bits.specs.Decide.{decide};
ghost use Rattle.short_record.specs.declared.kinds.Record.{Record};
ghost use Rattle.short_rule.specs.Code.{everywhere};
ghost use Rattle.short_reason.specs.Reason.{some_code, some_data_code, some_aet, some_wnr, access_rule, access_tests, rule_tests};

use reason::aborts::{abort, some_syndrome, unless};
use short_record::{DataAbort, InstructionAbort};
use short_rule::{asynchronous, no_syndrome_rule};

fn everywhere(code: u32) -> bool
    ensures { result ≡ everywhere code }
{
    matches!(code, 0x00..=0x03 | 0x05..=0x07 | 0x09..=0x0B | 0x0D..=0x10 | 0x15..=0x17 | 0x22 | 0x30)
}

// Whether some edition has a fault code of an instruction abort.
fn some_code(code: u32) -> bool
    ensures { result ≡ some_code code }
{
    everywhere(code) | matches!(code, 0x18 | 0x1D..=0x1F)
}

// Whether some edition has a fault code of a data abort.
fn some_data_code(code: u32) -> bool
    ensures { result ≡ some_data_code code }
{
    some_code(code) | matches!(code, 0x11 | 0x19 | 0x21 | 0x34 | 0x35)
}

fn some_aet(aet: u32, code: u32) -> bool
    ensures { result ≡ some_aet aet code }
{
    (aet == 0) | (code == 0x10) & (aet == 1) | (code == 0x11)
}

fn some_wnr(aet: u32, wnr: bool, code: u32) -> bool
    ensures { result ≡ some_wnr aet wnr code }
{
    !(asynchronous(code) & wnr) | (aet == 0)
}

fn access_rule(r: DataAbort) -> bool
    ensures { result ≡ access_rule r }
{
    (r.sas < 3) & !(r.srt == 15)
}

// What a data abort says of the access.
fn access(r: DataAbort, rest: u32) -> u32
    ensures { result ≡ decide (access_tests r []) rest }
{
    let maintenance = unless(iss::maintenance_rule(r.cm, r.wnr), 14, rest);
    let extension = unless(iss::extension_rule(r.sse, r.sas, r.wnr), 13, maintenance);
    let interrupt = unless(!asynchronous(r.code) | !r.cm, 22, extension);
    let own = unless(!r.isv | (!r.cm & !r.s1ptw), 12, interrupt);
    let register = unless(!r.isv | access_rule(r), 24, own);
    unless(r.isv | no_syndrome_rule(r), 10, register)
}

pub(crate) fn instruction_abort(r: InstructionAbort) -> u32
    ensures { result ≡ decide (rule_tests (Record.InstructionAbort r)) 0 }
{
    let code = unless(some_code(r.code), 17, 0);
    abort(r.fnv, r.ea, r.s1ptw, r.code, code)
}

// FnV is part of bits 11:10, which the code decides on.
pub(crate) fn data_abort(r: DataAbort) -> u32
    ensures { result ≡ decide (rule_tests (Record.DataAbort r)) 0 }
{
    let syndrome = unless(some_syndrome(r.isv, r.code), 19, 0);
    let wnr = unless(some_wnr(r.aet, r.wnr, r.code), 25, syndrome);
    let aet = unless(some_aet(r.aet, r.code), 23, wnr);
    let code = unless(some_data_code(r.code), 17, aet);
    let told = access(r, code);
    abort(false, r.ea, r.s1ptw, r.code, told)
}
