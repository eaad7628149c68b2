// What each instruction moves.
ghost use Rattle.std.specs.Prelude.{◌≡◌};
ghost use Rattle.a32_transfer.specs.Shape.{moves, transfer_shape, shape_of};

use a32_fields::{Fields, Transfer};

// Whether memory is read, how wide a transfer is (SAS: 0 a byte, 1 a halfword, 2 a word), and whether a load is extended by its sign (SSE).
#[derive(Clone, Copy)]
pub struct Shape {
    pub load: bool,
    pub sas: u32,
    pub sse: bool,
}

fn moves(load: bool, sas: u32, sse: bool) -> Shape
    ensures { result ≡ moves load sas sse }
{
    Shape { load, sas, sse }
}

fn transfer_shape(transfer: Transfer) -> Shape
    ensures { result ≡ transfer_shape transfer }
{
    match transfer {
        Transfer::Ldr => moves(true, 2, false),
        Transfer::Str => moves(false, 2, false),
        Transfer::Ldrb => moves(true, 0, false),
        Transfer::Strb => moves(false, 0, false),
        Transfer::Ldrh => moves(true, 1, false),
        Transfer::Strh => moves(false, 1, false),
        Transfer::Ldrsb => moves(true, 0, true),
        Transfer::Ldrsh => moves(true, 1, true),
        Transfer::Ldrd => moves(true, 2, false),
        Transfer::Strd => moves(false, 2, false),
    }
}

// LDRD, STRD and lists move word by word.
pub fn shape_of(f: Fields) -> Shape
    ensures { result ≡ shape_of f }
{
    match f {
        Fields::Immediate(r) => transfer_shape(r.transfer),
        Fields::Register(r) => transfer_shape(r.transfer),
        Fields::Literal(r) => transfer_shape(r.transfer),
        Fields::Multiple(r) => moves(r.load, 2, false),
    }
}
