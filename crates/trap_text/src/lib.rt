// The whole trap's answer in an edition as a line of text, and a trap as its lines in several editions, explained where that is asked for.
#![tactic(auto)]

ghost use Rattle.std.specs.Prelude.{cond, []};
ghost use Rattle.bits.specs.Field.{bit_of};
ghost use Rattle.edition.specs.Feature.{editions};
ghost use Rattle.text.specs.Append.{Extends};
ghost use Rattle.trap_text.specs.Shown.{virtual_text, intermediate_text, taken_text, refusal_text, answer_text, shown_text, lines_below};
ghost use Rattle.trap_text.specs.Shown.{told_text, trap_text};

use address::IntermediateAddress;
use log_text::{decimal_field, edition_field, hex_field};
use record::Origin;
use registers::{Esr, Far, Hpfar};
use text::Text;
use trap::{Trap, TrapRefusal};

fn virtual_field(text: &mut Text<'_>, address: Option<u64>)
    ensures { Extends (virtual_text address) text.old text.new }
{
    match address {
        Some(a) => {
            text.append(b" virtual");
            hex_field(text, a);
        }
        None => {}
    }
}

fn intermediate_field(text: &mut Text<'_>, address: Option<IntermediateAddress>)
    ensures { Extends (intermediate_text address) text.old text.new }
{
    let Some(known) = address else {
        return;
    };
    match known {
        IntermediateAddress::Page(a) => {
            text.append(b" page");
            hex_field(text, a);
        }
        IntermediateAddress::Byte(a) => {
            text.append(b" byte");
            hex_field(text, a);
        }
    }
}

fn addresses(text: &mut Text<'_>, t: Trap)
    ensures { Extends (taken_text t) text.old text.new }
{
    text.append(b" taken");
    match t {
        Trap::Abort(a) => {
            virtual_field(text, a.address);
            intermediate_field(text, a.intermediate);
        }
        Trap::Addressed(a) => virtual_field(text, Some(a.address)),
        Trap::Plain(_) => {}
    }
}

fn refusal(text: &mut Text<'_>, r: TrapRefusal)
    ensures { Extends (refusal_text r) text.old text.new }
{
    text.append(b" refused");
    decimal_field(text, trap::number(r) as u64);
    decimal_field(text, trap::mask(r) as u64);
    decimal_field(text, trap::count(r) as u64);
}

fn answer(text: &mut Text<'_>, a: Result<Trap, TrapRefusal>)
    ensures { Extends (answer_text a) text.old text.new }
{
    match a {
        Ok(t) => addresses(text, t),
        Err(r) => refusal(text, r),
    }
}

// What an edition makes of a trap: a log holds traps from AArch32.
pub fn shown_line(text: &mut Text<'_>, edition: u32, esr: Esr, far: Far, hpfar: Hpfar)
    ensures { Extends (shown_text edition esr far hpfar) text.old text.new }
{
    text.append(b"in");
    edition_field(text, edition);
    answer(text, trap::read(Origin::AArch32, edition, esr, far, hpfar));
    text.append(b"\n");
}

// The line, and behind it what is said of the trap, where that is asked for.
fn told_lines(text: &mut Text<'_>, explained: bool, edition: u32, esr: Esr, far: Far, hpfar: Hpfar)
    ensures { Extends (told_text explained edition esr far hpfar) text.old text.new }
{
    shown_line(text, edition, esr, far, hpfar);
    if explained {
        explain_text::trap_said(text, edition, esr, far, hpfar);
    }
}

// The lines of an edition that is in a mask.
fn line_in(
    text: &mut Text<'_>,
    mask: u32,
    explained: bool,
    edition: u32,
    esr: Esr,
    far: Far,
    hpfar: Hpfar,
)
    ensures { Extends (cond (bit_of mask edition) (told_text explained edition esr far hpfar) []) text.old text.new }
{
    if bits::bit(mask as u64, edition) {
        told_lines(text, explained, edition, esr, far, hpfar);
    }
}

// What each edition of a mask makes of a trap, each once and in ascending order.
fn lines_in(text: &mut Text<'_>, mask: u32, explained: bool, esr: Esr, far: Far, hpfar: Hpfar)
    ensures { Extends (lines_below editions mask (λ e. told_text explained e esr far hpfar)) text.old text.new }
{
    for e in 0..edition::EDITIONS {
        line_in(text, mask, explained, e, esr, far, hpfar);
    }
}

// A trap: its registers, and what each edition of a mask makes of it.
pub fn trap_lines(text: &mut Text<'_>, mask: u32, explained: bool, esr: Esr, far: Far, hpfar: Hpfar)
    ensures { Extends (trap_text mask explained esr far hpfar) text.old text.new }
{
    log_text::words_line(text, esr, far, hpfar);
    lines_in(text, mask, explained, esr, far, hpfar);
}
