// Single bits of a byte.
#![tactic(auto)]

ghost use Rattle.std.specs.Prelude.{◌≡◌, ◌<◌};
ghost use Rattle.bits.specs.Bits.{bit_at, flag};

// Whether bit n, 0 for the lowest, is 1.
pub fn bit(byte: u8, n: u8) -> bool
    requires { n < 8 }
    ensures { result ≡ bit_at byte n }
{
    (byte >> n) % 2 == 1
}

// What a flag adds to a byte: its value where it is set, else 0.
pub fn flag(set: bool, value: u8) -> u8
    ensures { result ≡ flag set value }
{
    if set { value } else { 0 }
}
