// One bit of a byte.
ghost use Rattle.std.specs.Prelude.{◌≡◌, ◌^◌};
ghost use Rattle.alu.specs.Bit.{bit_number, with_bit, without_bit};
ghost use Rattle.bits.specs.Bits.{bit_at};

use opcodes::Bit;

// The byte with this bit alone: 1, 2, 4, .., 128.
pub fn mask(bit: Bit) -> u8
    ensures { result ≡ 2 ^ bit_number bit }
{
    1 << u8::from(bit)
}

// Whether the byte has this bit.
pub fn is_set(bit: Bit, byte: u8) -> bool
    ensures { result ≡ bit_at byte (bit_number bit) }
{
    bits::bit(byte, u8::from(bit))
}

// The byte with this bit set and the others kept.
pub fn with(bit: Bit, byte: u8) -> u8
    ensures { result ≡ with_bit byte (bit_number bit) }
{
    byte | mask(bit)
}

// The byte with this bit clear and the others kept.
pub fn without(bit: Bit, byte: u8) -> u8
    ensures { result ≡ without_bit byte (bit_number bit) }
{
    byte & !mask(bit)
}
