// The editions that have a record: those whose rules allow its fields, where the rules that ask nothing of the edition hold.
ghost use Rattle.std.specs.Prelude.{◌≡◌};
ghost use Rattle.edition.specs.Mask.{mask_of};
ghost use Rattle.rule.specs.Has.{edition_rule, editions_of, allowed_of};

use super::il::il_rule;
use fault_code::{data_code, error_code, instruction_code, isv_rule, set_rule};
use record::{Origin, Record, Sort};

// The editions whose fault codes and error types allow a record's.
fn edition_rule(r: Record) -> u32
    ensures { result ≡ mask_of (λ e. edition_rule e r) }
{
    match record::sort(r) {
        Sort::Plain => edition::all_editions(),
        Sort::Addressed => edition::all_editions(),
        Sort::InstructionAbort(x) => instruction_code(x.code) & set_rule(x.set, x.code),
        Sort::DataAbort(x) => data_code(x.code) & set_rule(x.set, x.code) & isv_rule(x.isv, x.code),
        Sort::SError(x) => error_code(x.code),
    }
}

// The editions that allow a record's fields in a trap from this origin, whatever its class and IL.
#[tactic(auto, using(crate::proofs::Masks::field_mask))]
pub fn allowed(origin: Origin, r: Record) -> u32
    ensures { result ≡ allowed_of origin r }
{
    if layout_rule::layout_rule(origin, r) {
        edition_rule(r)
    } else {
        0
    }
}

// The editions that have a record, in a trap from this origin.
pub fn editions(origin: Origin, r: Record) -> u32
    ensures { result ≡ editions_of origin r }
{
    let h = record::head(r);
    if h.own & record::is_class(origin, h.class) & il_rule(origin, h.class, h.isv, h.il) {
        allowed(origin, r)
    } else {
        0
    }
}
