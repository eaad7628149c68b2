// Each transfer's own bits, and what its rules go by.
ghost use Rattle.std.specs.Prelude.{◌≡◌};
ghost use Rattle.a32_fields.specs.Code.{code_of, loads, dual};

use super::kinds::{Code, Transfer};

pub fn code(transfer: Transfer) -> Code
    ensures { result ≡ code_of transfer }
{
    match transfer {
        Transfer::Ldr => Code::Word { b: false, l: true },
        Transfer::Str => Code::Word { b: false, l: false },
        Transfer::Ldrb => Code::Word { b: true, l: true },
        Transfer::Strb => Code::Word { b: true, l: false },
        Transfer::Ldrh => Code::Extra {
            s: false,
            h: true,
            l: true,
        },
        Transfer::Strh => Code::Extra {
            s: false,
            h: true,
            l: false,
        },
        Transfer::Ldrsb => Code::Extra {
            s: true,
            h: false,
            l: true,
        },
        Transfer::Ldrsh => Code::Extra {
            s: true,
            h: true,
            l: true,
        },
        Transfer::Ldrd => Code::Extra {
            s: true,
            h: false,
            l: false,
        },
        Transfer::Strd => Code::Extra {
            s: true,
            h: true,
            l: false,
        },
    }
}

// LDRD is a load, though its L bit is 0.
pub fn loads(transfer: Transfer) -> bool
    ensures { result ≡ loads transfer }
{
    matches!(
        transfer,
        Transfer::Ldr
            | Transfer::Ldrb
            | Transfer::Ldrh
            | Transfer::Ldrsb
            | Transfer::Ldrsh
            | Transfer::Ldrd
    )
}

// Rt and the register after it.
pub fn dual(transfer: Transfer) -> bool
    ensures { result ≡ dual transfer }
{
    matches!(transfer, Transfer::Ldrd | Transfer::Strd)
}
