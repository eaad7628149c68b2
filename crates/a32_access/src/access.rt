// What a load or store does, from the registers, the PC and the mode.
ghost use Rattle.std.specs.Prelude.{◌≡◌, ◌*◌, count_ones};
ghost use Rattle.a32_access.specs.Place.{base_of, offset_of};
ghost use Rattle.a32_access.specs.Access.{access_in};

use crate::place::{address_of, change_of};
use crate::transfers::{count_of, ones_of};
use crate::value::{Bank, literal_base};
use a32_fields::Fields;
use signed::Signed;

// The instruction's fields, the number of its registers, the first address, and the change of the base.
#[derive(Clone, Copy)]
pub struct Access {
    pub fields: Fields,
    pub count: u32,
    pub address: u32,
    pub change: Signed,
}

fn base_of(bank: &Bank, f: Fields) -> u32
    ensures { result ≡ base_of bank.now.regs bank.now.pc bank.now.mode f }
{
    match f {
        Fields::Immediate(r) => bank.value_of(r.rn),
        Fields::Register(r) => bank.value_of(r.rn),
        Fields::Literal(r) => literal_base(bank.pc),
        Fields::Multiple(r) => bank.value_of(r.rn),
    }
}

// Four bytes for each register of a list.
fn list_size(list: u32) -> u32
    ensures { result ≡ 4 * count_ones list }
{
    4 * ones_of(list)
}

// An offset register counts as unsigned.
fn offset_of(bank: &Bank, f: Fields) -> u32
    ensures { result ≡ offset_of bank.now.regs bank.now.pc bank.now.mode f }
{
    match f {
        Fields::Immediate(r) => r.imm,
        Fields::Register(r) => bank.value_of(r.rm),
        Fields::Literal(r) => r.imm,
        Fields::Multiple(r) => list_size(r.list),
    }
}

pub fn access_in(bank: &Bank, f: Fields) -> Access
    ensures { result ≡ access_in bank.now.regs bank.now.pc bank.now.mode f }
{
    let size = offset_of(bank, f);
    let change = change_of(f, size);
    Access {
        fields: f,
        count: count_of(f),
        address: address_of(f, base_of(bank, f), size),
        change,
    }
}
