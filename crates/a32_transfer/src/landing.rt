// What a load leaves: the registers of its mode, and where the guest goes on.
ghost use Rattle.std.specs.Prelude.{◌≡◌, min};
ghost use Rattle.a32_transfer.specs.Landing.{with_held, base_register, written_back, arrived, load_to, loaded_first, landed};
ghost use Rattle.status.specs.Register.{held_in};

use super::shape::Shape;
use a32_access::{Access, Bank, back};
use a32_fields::Fields;
use data::{extended, transferred};
use signed::sum;
use status::held_in;

// The registers, and where a load of register 15 says that the guest goes on: else it does at the next instruction.
#[derive(Clone, Copy)]
pub struct Landing {
    pub regs: [u32; 31],
    pub branch: Option<u32>,
}

// The registers with a new value in a register of the mode; register 15 is none of them.
fn with_held(regs: [u32; 31], mode: u32, number: u32, value: u32) -> [u32; 31]
    ensures { result ≡ with_held regs (held_in mode number) value }
{
    match held_in(mode, number) {
        Some(n) => exception::with_register(regs, n as usize, value),
        None => regs,
    }
}

fn base_register(f: Fields) -> u32
    ensures { result ≡ base_register f }
{
    match f {
        Fields::Immediate(r) => r.rn,
        Fields::Register(r) => r.rn,
        Fields::Literal(r) => 15,
        Fields::Multiple(r) => r.rn,
    }
}

// The registers with the base changed, where it is written back.
pub fn written_back(bank: &Bank, access: Access) -> [u32; 31]
    ensures { result ≡ written_back bank.now.regs bank.now.pc bank.now.mode access }
{
    let f = access.fields;
    if back(f) {
        let base = base_register(f);
        let after = sum(bank.value_of(base), access.change);
        with_held(bank.regs, bank.mode, base, after)
    } else {
        bank.regs
    }
}

// The device's value as the register takes it.
fn arrived(shape: Shape, big: bool, value: u32) -> u32
    ensures { result ≡ arrived shape big value }
{
    extended(shape.sas, shape.sse, transferred(shape.sas, big, value))
}

// A load of register 15 is a branch.
fn load_to(to: Landing, mode: u32, number: u32, value: u32) -> Landing
    ensures { result ≡ load_to mode to number value }
{
    if number == 15 {
        Landing {
            branch: Some(value),
            ..to
        }
    } else {
        Landing {
            regs: with_held(to.regs, mode, number, value),
            ..to
        }
    }
}

// An instruction transfers sixteen registers at most.
pub(crate) fn transfers(count: u32) -> usize
    ensures { result ≡ min count 16 }
{
    count.min(16) as usize
}

// The registers loaded in transfer order.
// Kept: the values are the sixteen words that C hands in (knucklepin_a32_finish), beside their numbers and count.
#[tactic(auto, using(crate::proofs::Loaded::one_loaded), unfolding(crate::specs::Landing::loaded_first))]
pub fn landed(
    regs: [u32; 31],
    mode: u32,
    big: bool,
    shape: Shape,
    numbers: [u32; 16],
    values: [u32; 16],
    count: u32,
) -> Landing
    ensures { result ≡ landed regs mode big shape numbers values count }
{
    let mut to = Landing { regs, branch: None };
    for i in 0..transfers(count) {
        to = load_to(to, mode, numbers[i], arrived(shape, big, values[i]));
    }
    to
}
