// The pins: their levels, the interrupt input, and what the chip drives.
ghost use Rattle.std.specs.Prelude.{◌≡◌};
ghost use Rattle.chip.specs.Pins.{active, outputs, pins_a, pins_b, port_pins, requested};

use crate::state::{Chip, Port, Ports};
use alu::pins::pin_levels;
use board::reading::{Outputs, Reading};

impl Port {
    // The levels of its pins, where the board shows these levels and open pins.
    pub fn pins(&self, level: u8, open: u8, pulldowns_off: bool) -> u8
        ensures { result ≡ port_pins level «open» pulldowns_off self.now }
    {
        let high = if pulldowns_off { 255 } else { self.pulldown };
        pin_levels(level, open, self.latch, self.direction, high)
    }
}

impl Chip {
    // The levels of port A's pins. What it shares with port B is `Port::pins`; the rest is each port's own fields.
    pub fn pins_a(&self, reading: &Reading) -> u8
        ensures { result ≡ pins_a reading.now self.now }
    {
        self.ports
            .a
            .pins(reading.level_a, reading.open_a, self.rom.pdi())
    }

    // The levels of port B's pins; there are six.
    pub fn pins_b(&self, reading: &Reading) -> u8
        ensures { result ≡ pins_b reading.now self.now }
    {
        self.ports
            .b
            .pins(reading.level_b, reading.open_b, self.rom.pdi())
            % 64
    }

    // Whether the interrupt input is active: the IRQ pin is 0, or with PIRQ one of PA0 to PA3 is 1.
    pub fn active(&self, reading: &Reading) -> bool
        ensures { result ≡ active reading.now self.now }
    {
        reading.irq == 0 || self.rom.pirq() && self.pins_a(reading) % 16 != 0
    }

    // IRQF: the latch, or under LEVEL the last sample being active.
    pub fn requested(&self) -> bool
        ensures { result ≡ requested self.now }
    {
        self.interrupt.latch || self.rom.level() && self.interrupt.active
    }

    // Directions, and latches where they are driven.
    pub fn outputs(&self) -> Outputs
        ensures { result ≡ outputs self.now }
    {
        let Ports { a, b } = self.ports;
        Outputs {
            direction_a: a.direction,
            driven_a: a.latch & a.direction,
            direction_b: b.direction,
            driven_b: b.latch & b.direction,
        }
    }
}
