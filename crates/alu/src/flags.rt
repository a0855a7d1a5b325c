// The flags of the CPU, and the condition byte.
ghost use Rattle.std.specs.Prelude.{◌≡◌};
ghost use Rattle.alu.specs.Flags.{condition_byte, flags_in, with_nz, with_nzc, ConditionByteKeepsFlags};

use crate::bit::is_set;
use opcodes::Bit;

// Half carry, interrupt mask, negative, zero, carry.
#[derive(Clone, Copy, Default)]
pub struct Flags {
    pub h: bool,
    pub i: bool,
    pub n: bool,
    pub z: bool,
    pub c: bool,
}

impl Flags {
    // 111HINZC, bit 7 first. The name says which byte, as a From would not.
    pub fn condition_byte(self) -> u8
        ensures { result ≡ condition_byte self }
    {
        224 + 16 * u8::from(self.h)
            + 8 * u8::from(self.i)
            + 4 * u8::from(self.n)
            + 2 * u8::from(self.z)
            + u8::from(self.c)
    }

    // The flags that a condition byte holds, whatever its bits 7 to 5 are.
    pub fn from_condition_byte(byte: u8) -> Flags
        ensures { result ≡ flags_in byte }
    {
        Flags {
            h: is_set(Bit::Bit4, byte),
            i: is_set(Bit::Bit3, byte),
            n: is_set(Bit::Bit2, byte),
            z: is_set(Bit::Bit1, byte),
            c: is_set(Bit::Bit0, byte),
        }
    }

    // N and Z by a byte; H, I and C are kept.
    pub fn set_nz(&mut self, byte: u8)
        ensures { self.new ≡ with_nz self.old byte }
    {
        self.n = byte >= 128;
        self.z = byte == 0;
    }

    // N and Z by a byte, and C; H and I are kept.
    pub fn set_nzc(&mut self, byte: u8, carry: bool)
        ensures { self.new ≡ with_nzc self.old byte carry }
    {
        self.set_nz(byte);
        self.c = carry;
    }
}

// The condition byte loses no flag, and a byte 111HINZC comes back from its flags.
pub fn condition_byte_keeps_flags()
    ensures { ConditionByteKeepsFlags }
{}
