// What a register of the guest reads as.
ghost use Rattle.std.specs.Prelude.{◌≡◌};
ghost use Rattle.a32_access.specs.Value.{program_counter, value_of, literal_base};

use status::held_in;

// Register 15: PC plus 8.
fn program_counter(pc: u32) -> u32
    ensures { result ≡ program_counter pc }
{
    pc.wrapping_add(8)
}

// What an instruction reads of a guest: its registers, its PC, and the mode that says which registers are its own.
#[derive(Clone, Copy)]
pub struct Bank {
    pub regs: [u32; 31],
    pub pc: u32,
    pub mode: u32,
}

impl Bank {
    // A register of the mode.
    #[tactic(auto, unfolding(crate::specs::Value::value_of))]
    pub fn value_of(&self, number: u32) -> u32
        ensures { result ≡ value_of self.now.regs self.now.pc self.now.mode number }
    {
        if number == 15 {
            return program_counter(self.pc);
        }
        // Kept: an index and its test: an option of a reference is a pointer behind a tag, which lies elsewhere on a 32-bit board.
        match held_in(self.mode, number) {
            Some(n) => {
                let at = n as usize;
                if at < 31 { self.regs[at] } else { 0 }
            }
            None => 0,
        }
    }
}

// Down to a multiple of 4.
#[tactic(auto, unfolding(crate::specs::Value::literal_base))]
pub(crate) fn literal_base(pc: u32) -> u32
    ensures { result ≡ literal_base pc }
{
    program_counter(pc) / 4 * 4
}
