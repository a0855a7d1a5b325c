// Moves of a byte by one bit; C takes the bit moved out.
ghost use Rattle.std.specs.Prelude.{◌≡◌};
ghost use Rattle.alu.specs.Shift.{left_value, right_value, moved_left, moved_right};

use crate::outcome::Outcome;

fn left_value(byte: u8, low: bool) -> u8
    ensures { result ≡ left_value byte low }
{
    (byte.rotate_left(1) & 0xfe) | u8::from(low)
}

fn right_value(byte: u8, high: bool) -> u8
    ensures { result ≡ right_value byte high }
{
    (byte.rotate_right(1) & 0x7f) | u8::from(high).rotate_right(1)
}

// To the left, with this as the new bit 0.
pub fn left(byte: u8, low: bool) -> Outcome
    ensures { result ≡ moved_left byte low }
{
    Outcome {
        value: left_value(byte, low),
        carry: byte >= 128,
    }
}

// To the right, with this as the new bit 7.
pub fn right(byte: u8, high: bool) -> Outcome
    ensures { result ≡ moved_right byte high }
{
    Outcome {
        value: right_value(byte, high),
        carry: byte % 2 == 1,
    }
}
