// What a board shows at the pins, and what the microcontroller drives there.
ghost use Rattle.std.specs.Prelude.{◌≡◌, Some};
ghost use Rattle.board.specs.Reading.{ranged, on_pins, reading_text};

use std::fmt;

// Levels of ports A and B and of IRQ; a set open bit means that nothing drives that pin.
#[derive(Clone, Copy, PartialEq, Eq, Debug)]
pub struct Reading {
    pub level_a: u8,
    pub open_a: u8,
    pub level_b: u8,
    pub open_b: u8,
    pub irq: u8,
}

// Directions (1 for an output) and driven levels, which are latch AND direction.
#[derive(Clone, Copy, PartialEq, Eq, Debug, Default)]
pub struct Outputs {
    pub direction_a: u8,
    pub driven_a: u8,
    pub direction_b: u8,
    pub driven_b: u8,
}

impl Reading {
    // Whether only pins that exist are spoken of: port B has six, IRQ is one.
    pub fn in_range(&self) -> bool
        ensures { result ≡ ranged self.now }
    {
        self.level_b < 64 && self.open_b < 64 && self.irq < 2
    }

    // The reading cut to the pins that exist.
    pub(crate) fn on_pins(self) -> Reading
        ensures { result ≡ on_pins self }
    {
        Reading {
            level_b: self.level_b % 64,
            open_b: self.open_b % 64,
            irq: self.irq % 2,
            ..self
        }
    }
}

// The five numbers, with single spaces.
impl fmt::Display for Reading {
    ghost output = { λ reading. Some (reading_text reading) };

    fn fmt<W: fmt::Write>(&self, f: &mut fmt::Formatter<W>) -> fmt::Result {
        let Reading {
            level_a,
            open_a,
            level_b,
            open_b,
            irq,
        } = *self;
        write!(f, "{level_a} {open_a} {level_b} {open_b} {irq}")
    }
}
