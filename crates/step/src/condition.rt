// Whether a trapped instruction counts: one whose condition fails does nothing.
ghost use Rattle.std.specs.Prelude.{◌≡◌};
ghost use Rattle.step.specs.Condition.{condition_of, tested, test_of, condition_holds, current_condition, passes};

use bits::{bit, field32};
use record::{Ldc, Mcr, Mcrr, Record, Simd, Wfx};
use status::{it_of, t32};

// What a record says of its instruction's condition: CV and COND.
#[derive(Clone, Copy)]
pub(crate) struct Condition {
    cv: bool,
    cond: u32,
}

// None where the instruction has no condition, or is known to have passed it.
fn condition_of(what: Record) -> Option<Condition>
    ensures { result ≡ condition_of what }
{
    match what {
        Record::Wfx(Wfx { cv, cond, .. })
        | Record::Mcr(Mcr { cv, cond, .. })
        | Record::Mcrr(Mcrr { cv, cond, .. })
        | Record::Ldc(Ldc { cv, cond, .. })
        | Record::Simd(Simd { cv, cond, .. }) => Some(Condition { cv, cond }),
        Record::Smc(x) if x.ccknownpass => Some(Condition {
            cv: x.cv,
            cond: x.cond,
        }),
        _ => None,
    }
}

// The test of N, Z, C and V that COND<3:1> chooses.
fn tested(test: u32, n: bool, z: bool, c: bool, v: bool) -> bool
    ensures { result ≡ tested test n z c v }
{
    match test {
        0 => z,
        1 => c,
        2 => n,
        3 => v,
        4 => c & !z,
        5 => n == v,
        6 => (n == v) & !z,
        _ => true,
    }
}

fn test_of(cond: u32, status: u32) -> bool
    ensures { result ≡ test_of cond status }
{
    let word = status as u64;
    tested(
        field32(cond as u64, 3, 1),
        bit(word, 31),
        bit(word, 30),
        bit(word, 29),
        bit(word, 28),
    )
}

// The manual's ConditionHolds: COND<0> inverts the test, but of 1111.
#[tactic(auto, unfolding(crate::specs::Condition::condition_holds))]
fn condition_holds(cond: u32, status: u32) -> bool
    ensures { result ≡ condition_holds cond status }
{
    let holds = test_of(cond, status);
    if bit(cond as u64, 0) & !(field32(cond as u64, 3, 0) == 15) {
        !holds
    } else {
        holds
    }
}

// The manual's CurrentCond of a T32 instruction: IT<7:4> in an IT block, else always. An A32 instruction's stands in the record.
fn current_condition(status: u32) -> u32
    ensures { result ≡ current_condition status }
{
    let it = it_of(status) as u64;
    if t32(status) & !(field32(it, 3, 0) == 0) {
        field32(it, 7, 4)
    } else {
        0b1110
    }
}

// Whether the instruction's condition passes, in a guest with this status word.
#[tactic(auto, unfolding(crate::specs::Condition::passes))]
pub fn passes(status: u32, what: Record) -> bool
    ensures { result ≡ passes status what }
{
    match condition_of(what) {
        None => true,
        Some(condition) => {
            if condition.cv {
                condition_holds(condition.cond, status)
            } else {
                condition_holds(current_condition(status), status)
            }
        }
    }
}
