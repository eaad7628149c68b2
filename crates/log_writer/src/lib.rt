// Writes a trap log into a buffer that the caller lends.
#![tactic(auto)]

ghost use Rattle.std.specs.Prelude.{◌≡◌};
ghost use Rattle.log_writer.specs.Lists.{Lists};
ghost use Rattle.log_writer.specs.Write.{Writing};

mod answer;
mod lists;
mod put;

pub use answer::{WriteRefusal, length_in, number};

// The words of ESR, FAR and HPFAR, each kind in a struct of its own, so that a caller can't exchange them.
#[derive(Clone, Copy)]
pub struct Syndromes<'a>(pub &'a [u64]);

#[derive(Clone, Copy)]
pub struct Fars<'a>(pub &'a [u64]);

#[derive(Clone, Copy)]
pub struct Hpfars<'a>(pub &'a [u64]);

// Writes a log. An injection is a number of two bytes: the lower is its own, the upper its domain. A refusal leaves the whole buffer as it
// was, and a log leaves what lies past it.
// Kept: five slices, whose lengths may differ: `Writing` answers 15 where they do, and no heap holds pairs.
pub fn write<'a, 'b>(
    editions: &'a [u8],
    syndromes: Syndromes<'a>,
    fars: Fars<'a>,
    hpfars: Hpfars<'a>,
    injections: &'a [u16],
    out: &'b mut [u8],
) -> Result<usize, WriteRefusal>
    ensures { Writing record { editions = editions.now; syndromes = syndromes.entry.0.now; fars = fars.entry.0.now; hpfars = hpfars.entry.0.now; injections = injections.now } out.old out.new result }
{
    lists::write_lists(editions, syndromes.0, fars.0, hpfars.0, injections, out)
}
