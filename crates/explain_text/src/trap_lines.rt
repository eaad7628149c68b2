// A whole trap.
ghost use Rattle.std.specs.Prelude.{◌++◌};
ghost use Rattle.text.specs.Append.{Extends};
ghost use Rattle.text.specs.Ascii.{ascii};
ghost use Rattle.explain_text.specs.Trap.{hpfar_text, trap_said};
ghost use Rattle.explain_text.specs.Inner.{refusal_lines, answer_lines};

use super::address_lines::addresses;
use super::word_lines::{refused, taken};
use record::Origin;
use registers::{Esr, Far, Hpfar};
use text::Text;
use trap::{Trap, TrapRefusal};

fn hpfar_line(text: &mut Text<'_>, edition: u32)
    ensures { Extends (hpfar_text edition) text.old text.new }
{
    if edition::has_lpa(edition) {
        text.append(b"refused 7: a bit of HPFAR outside 43:4 is set\n");
    } else {
        text.append(b"refused 7: a bit of HPFAR outside 39:4 is set\n");
    }
}

// Why a trap is refused, and where a register refuses it the fields of its syndrome, which was taken.
fn refusal(text: &mut Text<'_>, edition: u32, esr: Esr, refusal: TrapRefusal)
    ensures { Extends (refusal_lines edition esr.0 refusal) text.old text.new }
{
    match refusal {
        TrapRefusal::Syndrome(r) => refused(text, esr, r),
        TrapRefusal::Hpfar => {
            hpfar_line(text, edition);
            record_text::word_lines(text, esr);
        }
        TrapRefusal::Far => {
            text.append(b"refused 8: bits 63:32 of FAR are not zero\n");
            record_text::word_lines(text, esr);
        }
    }
}

fn answer(text: &mut Text<'_>, edition: u32, esr: Esr, a: Result<Trap, TrapRefusal>)
    ensures { Extends (answer_lines edition esr.0 a) text.old text.new }
{
    match a {
        Ok(t) => {
            taken(text, esr);
            addresses(text, t);
        }
        Err(r) => refusal(text, edition, esr, r),
    }
}

// What an edition makes of a trap.
pub fn trap_said(text: &mut Text<'_>, edition: u32, esr: Esr, far: Far, hpfar: Hpfar)
    ensures { Extends (trap_said edition esr far hpfar) text.old text.new }
{
    answer(
        text,
        edition,
        esr,
        trap::read(Origin::AArch32, edition, esr, far, hpfar),
    );
}
