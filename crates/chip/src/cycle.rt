// Cycles of the chip, at whose ends the interrupt input is sampled.
ghost use Rattle.std.specs.Prelude.{◌≡◌, ◌<◌};
ghost use Rattle.timer.specs.Clock.{Runs};
ghost use Rattle.chip.specs.Cycle.{passed, sampled};

use crate::state::{Chip, Interrupt};

impl Interrupt {
    // A sample: going from not active to active sets the latch.
    fn sample(&mut self, active: bool)
        ensures { self.new ≡ sampled active self.old }
    {
        self.latch = active && !self.active || self.latch;
        self.active = active;
    }
}

impl Chip {
    // So many cycles, with the same sample at the end of each; t rises unless it stands. That the timer runs is asked here, since as a ghost field of it the fact would bind each write to its public fields.
    pub fn pass(&mut self, rises: bool, active: bool, cycles: u32)
        requires { (Runs self.old.timer) × (cycles < 1024) }
        ensures { self.new ≡ passed rises active cycles self.old }
    {
        self.interrupt.sample(active);
        if rises {
            let watched = self.rom.copen();
            self.timer.pass(watched, cycles);
        }
    }
}
