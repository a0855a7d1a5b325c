// The stack, which lies in RAM and goes round at both ends.
ghost use Rattle.std.specs.Prelude.{◌≡◌};
ghost use Rattle.chip.specs.Stack.{pulled, pulled_byte, pushed};

use crate::state::Chip;

impl Chip {
    // Writes at the stack pointer, then lowers it.
    pub fn push(&mut self, byte: u8)
        ensures { self.new ≡ pushed byte self.old }
    {
        let sp = self.registers.sp;
        self.ram[usize::from(sp % 64)] = byte;
        self.registers.sp = 192 + (sp % 64 + 63) % 64;
    }

    // Raises the stack pointer, then reads there.
    pub fn pull(&mut self) -> u8
        ensures byte { result ≡ pulled_byte self.old }
        ensures left { self.new ≡ pulled self.old }
    {
        let sp = 192 + (self.registers.sp % 64 + 1) % 64;
        self.registers.sp = sp;
        self.ram[usize::from(sp % 64)]
    }
}
