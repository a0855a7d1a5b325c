// A machine and what every machine keeps; its calls are in the modules below.
ghost use Rattle.std.specs.Prelude.{◌≤◌};
ghost use Rattle.step.specs.Sound.{SoundPortB, SoundRegisters, SoundRest, SoundStage, SoundTimer};
ghost use Rattle.machine.specs.Limits.{total_most};

use cycles::Fitted;

pub mod calls;
pub mod questions;

// The chip on its board, the cycles counted since the image was loaded, and whether there is an image: without one, too, there are registers, pins and a clock to ask for, so the chip is no part of an Option.
#[derive(Drop)]
pub struct Machine<B> {
    fitted: Fitted<B>,
    total: u64,
    loaded: bool,
    ghost registers: { SoundRegisters fitted.chip.registers },
    ghost ports: { SoundPortB fitted.chip.ports.b },
    ghost timer: { SoundTimer fitted.chip.timer },
    ghost stage: { SoundStage fitted.chip.timer.stage fitted.chip.rom },
    ghost rest: { SoundRest fitted.chip },
    ghost count: { total ≤ total_most },
}
