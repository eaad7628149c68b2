// What a store gives the device, and the addresses of a load or store.
ghost use Rattle.std.specs.Prelude.{◌≡◌, min};
ghost use Rattle.a32_access.specs.Transferred.{padded};
ghost use Rattle.a32_transfer.specs.Giving.{firsts, address_at, given_at};

use super::landing::transfers;
use a32_access::Bank;
use data::transferred;

// The address of each transfer, in transfer order: 4 bytes after the one before it; and 0 after the last.
#[tactic(auto, unfolding(crate::specs::Giving::firsts))]
pub fn addresses(first: u32, count: u32) -> [u32; 16]
    ensures { result ≡ padded 16 (firsts (address_at first) (min count 16)) }
{
    let mut all = [0u32; 16];
    let mut address = first;
    for i in 0..transfers(count) {
        all[i] = address;
        address = address.wrapping_add(4);
    }
    all
}

// What each register gives, in transfer order, and 0 after the last. Register 15 gives PC plus 8.
// Kept beside `addresses`: the two differ in what goes into each place, and a closure for it is no plainer than a loop of one line.
#[tactic(auto, unfolding(crate::specs::Giving::firsts))]
pub fn given(bank: &Bank, big: bool, sas: u32, numbers: [u32; 16], count: u32) -> [u32; 16]
    ensures { result ≡ padded 16 (firsts (given_at bank.now.regs bank.now.pc bank.now.mode big sas numbers) (min count 16)) }
{
    let mut all = [0u32; 16];
    for i in 0..transfers(count) {
        all[i] = transferred(sas, big, bank.value_of(numbers[i]));
    }
    all
}
