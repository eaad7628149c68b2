// Why no edition has a word, of a trap from AArch32: the number of the first rule that the word breaks, 0 where it breaks none. What each
// number says in words is in crate `names`.
#![tactic(auto)]

ghost use Rattle.std.specs.Prelude.{◌≡◌};
ghost use Rattle.reason.specs.Reason.{debug_exceptions, why_of};
ghost use Rattle.bits.specs.Among.{among};

use registers::Esr;

pub mod aborts;
pub mod kinds;

// A debug exception other than BKPT.
fn debug_exception(class: u32) -> bool
    ensures { result ≡ among debug_exceptions class }
{
    matches!(class, 0x30 | 0x32 | 0x34 | 0x3A)
}

// The first rule that a word breaks.
// Kept: a number and no enum, by the clause why_of; names' list of reasons has each rule's words at it.
pub fn why(esr: Esr) -> u32
    ensures { result ≡ why_of esr.0 }
{
    let word = esr.0;
    let r = record::record_at(esr);
    let rule = kinds::rules(r);
    let fields = aborts::unless(layout::joined(r) == word, 1, rule);
    let debug = debug_exception(bits::field32(word, 31, 26));
    aborts::unless(!debug | (bits::field32(word, 5, 0) == 0x22), 20, fields)
}
