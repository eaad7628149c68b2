// The cause that a record tells of, by value.
ghost use Rattle.std.specs.Prelude.{◌≡◌};
ghost use Rattle.cause.specs.Answer.{cause_number, CausePromise};

use crate::kind::{Cause, cause_at};
use record::{Addresses, Origin, Record};

// Why a record has no cause.
#[derive(Clone, Copy, PartialEq, Eq)]
pub enum CauseRefusal {
    // No edition has the record.
    NoEdition,
    // The record is no instruction or data abort.
    NoAbort,
}

// Kept: the number of an answer, 0 where there is a cause: the C interface.
pub fn number(answer: Result<Cause, CauseRefusal>) -> u32
    ensures { result ≡ cause_number answer }
{
    match answer {
        Ok(_) => 0,
        Err(CauseRefusal::NoEdition) => 5,
        Err(CauseRefusal::NoAbort) => 18,
    }
}

// Why the abort of a record came.
#[tactic(auto, using(crate::proofs::Answers::promised), unfolding(crate::specs::Answer::cause_of))]
pub fn cause_of(origin: Origin, what: Record) -> Result<Cause, CauseRefusal>
    ensures { CausePromise origin what result }
{
    if rule::editions(origin, what) == 0 {
        return Err(CauseRefusal::NoEdition);
    }
    match record::addresses(what) {
        None => Err(CauseRefusal::NoAbort),
        Some(Addresses::Virtual) => Err(CauseRefusal::NoAbort),
        Some(Addresses::Abort { s1ptw, code, .. }) => Ok(cause_at(s1ptw, code)),
    }
}
