// The chip as it is made, and its reset.
ghost use Rattle.std.specs.Prelude.{◌≡◌};
ghost use Rattle.chip.specs.Reset.{fresh, port_reset, reset};

use crate::state::{Chip, Interrupt, Mode, Port, Ports, Registers};
use part::layout::Vector;
use part::rom::Rom;
use timer::state::Timer;

impl Port {
    // Inputs with pulldowns; the latch stays.
    fn reset(&mut self)
        ensures { self.new ≡ port_reset self.old }
    {
        self.direction = 0;
        self.pulldown = 0;
    }
}

impl Chip {
    // Running, SP $FF and all else 0.
    pub fn new() -> Chip
        ensures { result ≡ fresh }
    {
        Chip {
            registers: Registers {
                sp: 255,
                ..Registers::default()
            },
            ports: Ports::default(),
            timer: Timer::new(),
            interrupt: Interrupt::default(),
            mode: Mode::Running,
            ram: [0; 64],
            rom: Rom::blank(),
        }
    }

    // A reset. Port latches, A, X, H, N, Z, C, RAM and the last sample stay.
    pub fn reset(&mut self)
        ensures { self.new ≡ reset self.old }
    {
        self.registers.sp = 255;
        self.registers.flags.i = true;
        self.registers.pc = self.rom.vector(Vector::Reset);
        self.ports.a.reset();
        self.ports.b.reset();
        self.timer.reset();
        self.interrupt.enable = true;
        self.interrupt.latch = false;
        self.mode = Mode::Running;
    }
}
