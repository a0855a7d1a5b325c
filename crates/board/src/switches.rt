// A board of switches and wires that stay as they are.
ghost use Rattle.std.specs.Prelude.{◌≡◌, ℕ, ◌≤◌, IfOk};
ghost use Rattle.board.specs.Switches.{switches_of, switches_shows, switches_advanced, switches_told};
ghost use Rattle.board.specs.LawsKept.{switches_laws};

use crate::contract::Board;
use crate::reading::{Outputs, Reading};
use crate::refused::BadEntry;

// Always shows one reading.
#[derive(Clone, Copy)]
pub struct Switches {
    reading: Reading,
}

impl Switches {
    // The board that shows this reading for ever; refused at index 0 where the reading is out of range.
    pub fn new(reading: Reading) -> Result<Switches, BadEntry>
        ensures answer { result ≡ switches_of reading }
        ensures shown { IfOk result (λ s. (n : ℕ) → switches_shows s n ≡ reading) }
    {
        if reading.in_range() {
            Ok(Switches { reading })
        } else {
            Err(BadEntry { index: 0 })
        }
    }
}

impl Board for Switches {
    ghost shows = { switches_shows };

    ghost advanced = { switches_advanced };

    ghost told = { switches_told };

    ghost laws = { switches_laws };

    fn show(&self) -> Reading {
        self.reading.on_pins()
    }

    fn advance(&mut self, n: u16) {}

    // The most cycles there are.
    fn quiet(&self) -> u16
        ensures still { (k : ℕ) → k ≤ result → switches_shows self.now k ≡ switches_shows self.now 0 }
        ensures answer { result ≡ 65535 }
    {
        u16::MAX
    }

    fn tell(&mut self, outputs: Outputs) {}
}
