// The levels of a port's eight pins.
ghost use Rattle.std.specs.Prelude.{◌≡◌};
ghost use Rattle.alu.specs.Pins.{chosen, pin_levels, EachPin};

// The bits of one byte where the mask is 1, and of the other where it is 0.
fn choose(mask: u8, ones: u8, zeros: u8) -> u8
    ensures { result ≡ chosen mask ones zeros }
{
    (mask & ones) | (!mask & zeros)
}

// An output has its latch's level, an input the board's, and an open input the bit of `high`.
pub fn pin_levels(level: u8, open: u8, latch: u8, direction: u8, high: u8) -> u8
    ensures is { result ≡ pin_levels level «open» latch direction high }
    ensures each { EachPin level «open» latch direction high result }
{
    choose(direction, latch, choose(open, high, level))
}
