// Which editions a row of rules leaves, and the first rule after which none is left.
#![tactic(auto)]

ghost use Rattle.std.specs.Prelude.{◌≡◌};
ghost use Rattle.narrow.specs.Rule.{started, leaving, kept, narrowed};

// The editions that are left, and where there are none the number of the rule after which none was.
#[derive(Clone, Copy, PartialEq, Eq)]
pub struct Left {
    pub mask: u32,
    pub why: Option<u32>,
}

// All editions where a record's fields fit their bits, else none.
#[tactic(auto, unfolding(crate::specs::Rule::started))]
pub fn start(all: u32, fits: bool) -> Left
    ensures { result ≡ started all fits }
{
    let mask = if fits { all } else { 0 };
    Left { mask, why: None }
}

fn leaving(left: Left, number: u32, mask: u32) -> Left
    ensures { result ≡ leaving number mask left }
{
    let why = if (mask == 0) & !(left.mask == 0) {
        Some(number)
    } else {
        left.why
    };
    Left { mask, why }
}

// A rule that asks nothing of the edition.
#[tactic(auto, unfolding(crate::specs::Rule::kept))]
pub fn keep(left: Left, number: u32, holds: bool) -> Left
    ensures { result ≡ kept number holds left }
{
    if holds {
        left
    } else {
        leaving(left, number, 0)
    }
}

// A rule that goes by the edition: the mask of those where it holds.
#[tactic(auto, unfolding(crate::specs::Rule::narrowed))]
pub fn narrow(left: Left, number: u32, mask: u32) -> Left
    ensures { result ≡ narrowed number mask left }
{
    leaving(left, number, left.mask & mask)
}
