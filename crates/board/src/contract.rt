// What every board is to a machine.
ghost use Rattle.std.specs.Prelude.{◌≡◌, ℕ, ◌≤◌};
ghost use Rattle.board.specs.declared.reading.Reading.{Reading};
ghost use Rattle.board.specs.declared.reading.Outputs.{Outputs};
ghost use Rattle.board.specs.Contract.{Laws};

use crate::reading::{Outputs, Reading};

// A board's meaning: the reading it shows after n further cycles, and which board it is after n cycles and when told outputs.
pub trait Board: Sized {
    ghost shows: { Self → ℕ → Reading };

    ghost advanced: { Self → ℕ → Self };

    ghost told: { Self → Outputs → Self };

    ghost laws: { Laws shows advanced };

    // The reading now.
    fn show(&self) -> Reading
        ensures { result ≡ shows self.now 0 };

    // Lets n cycles pass.
    fn advance(&mut self, n: u16)
        ensures { self.new ≡ advanced self.old n };

    // A number of cycles for which the reading stays as it is now.
    fn quiet(&self) -> u16
        ensures { (k : ℕ) → k ≤ result → shows self.now k ≡ shows self.now 0 };

    // Takes note of what the microcontroller drives.
    fn tell(&mut self, outputs: Outputs)
        ensures { self.new ≡ told self.old outputs };
}
