// The addresses of a trap, and why one is missing.
ghost use Rattle.std.specs.Prelude.{◌++◌};
ghost use Rattle.text.specs.Append.{Extends};
ghost use Rattle.text.specs.Ascii.{ascii};
ghost use Rattle.explain_text.specs.Trap.{virtual_text, intermediate_text, addresses_text};

use address::IntermediateAddress;
use text::Text;
use trap::Trap;

fn virtual_line(text: &mut Text<'_>, address: Option<u64>)
    ensures { Extends (virtual_text address) text.old text.new }
{
    match address {
        Some(a) => {
            text.append(b"virtual address 0x");
            text.append_hex(a);
            text.append(b": FAR\n");
        }
        None => text.append(
            b"virtual address not known: FnV is 1, and FAR holds an UNKNOWN value\n",
        ),
    }
}

fn intermediate_line(text: &mut Text<'_>, address: Option<IntermediateAddress>)
    ensures { Extends (intermediate_text address) text.old text.new }
{
    let Some(known) = address else {
        text.append(
            b"intermediate address not known: this code, with this S1PTW, leaves HPFAR UNKNOWN\n",
        );
        return;
    };
    text.append(b"intermediate address 0x");
    match known {
        IntermediateAddress::Page(a) => {
            text.append_hex(a);
            text.append(b": the page in HPFAR alone, since S1PTW is 1\n");
        }
        IntermediateAddress::Byte(a) => {
            text.append_hex(a);
            text.append(b": the page in HPFAR with FAR 11:0\n");
        }
    }
}

pub(crate) fn addresses(text: &mut Text<'_>, t: Trap)
    ensures { Extends (addresses_text t) text.old text.new }
{
    match t {
        Trap::Abort(a) => {
            virtual_line(text, a.address);
            intermediate_line(text, a.intermediate);
        }
        Trap::Addressed(a) => {
            virtual_line(text, Some(a.address));
            text.append(b"no intermediate address: this class has none\n");
        }
        Trap::Plain(_) => text.append(b"no address: this class has none\n"),
    }
}
