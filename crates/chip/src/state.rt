// What the chip holds.
ghost use Rattle.std.specs.Prelude.{◌≡◌};
ghost use Rattle.chip.specs.State.{mode_number};

use alu::flags::Flags;
use part::rom::Rom;
use timer::state::Timer;

#[derive(Clone, Copy, Default)]
pub struct Registers {
    pub a: u8,
    pub x: u8,
    pub sp: u8,
    pub pc: u16,
    pub flags: Flags,
}

// A port: output latch, directions (1 for an output) and pulldown bits (0 for a pulldown that is on).
#[derive(Clone, Copy, Default)]
pub struct Port {
    pub latch: u8,
    pub direction: u8,
    pub pulldown: u8,
}

#[derive(Clone, Copy, Default)]
pub struct Ports {
    pub a: Port,
    pub b: Port,
}

// The external interrupt: IRQE, the latch that an edge sets, and whether the input was active at the last sample.
#[derive(Clone, Copy, Default)]
pub struct Interrupt {
    pub enable: bool,
    pub latch: bool,
    pub active: bool,
}

#[derive(Clone, Copy, PartialEq, Eq, Debug)]
pub enum Mode {
    Running = 1,
    Waiting = 2,
    Stopped = 3,
}

// Its published number.
impl From<Mode> for u8 {
    ghost from_gives = { λ mode number. number ≡ mode_number mode };

    fn from(mode: Mode) -> u8 {
        mode as u8
    }
}

#[derive(Drop)]
pub struct Chip {
    pub registers: Registers,
    pub ports: Ports,
    pub timer: Timer,
    pub interrupt: Interrupt,
    pub mode: Mode,
    pub ram: [u8; 64],
    pub rom: Rom,
}
