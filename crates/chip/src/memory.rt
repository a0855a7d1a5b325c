// What a read of an address answers, and what a write does.
ghost use Rattle.std.specs.Prelude.{◌≡◌};
ghost use Rattle.chip.specs.Memory.{interrupt_control, interrupt_written, service_written, read, written};

use crate::map::{Location, locate};
use crate::state::{Chip, Interrupt};
use bits::{bit, flag};
use board::reading::Reading;
use timer::state::Timer;

impl Interrupt {
    // A write to $000A: IRQE; a 1 in bit 1 clears the latch.
    fn write_control(&mut self, byte: u8)
        ensures { self.new ≡ interrupt_written byte self.old }
    {
        self.enable = bit(byte, 7);
        self.latch = self.latch && !bit(byte, 1);
    }
}

// A write to the watchdog's place: a service where bit 0 is 0.
fn write_service(timer: &mut Timer, byte: u8)
    ensures { timer.new ≡ service_written byte timer.old }
{
    if byte % 2 == 0 {
        timer.service();
    }
}

impl Chip {
    // What $000A reads: IRQE and IRQF.
    fn interrupt_control(&self) -> u8
        ensures { result ≡ interrupt_control self.now }
    {
        flag(self.interrupt.enable, 128) + flag(self.requested(), 8)
    }

    // The byte at an address, with the board's reading at the pins.
    pub fn read(&self, reading: &Reading, address: u16) -> u8
        ensures { result ≡ read reading.now address self.now }
    {
        match locate(address) {
            Location::Eprom(k) => self.rom.eprom[usize::from(k)],
            Location::Ram(k) => self.ram[usize::from(k)],
            Location::PortA => self.pins_a(reading),
            Location::PortB => self.pins_b(reading),
            Location::DirectionA => self.ports.a.direction,
            Location::DirectionB => self.ports.b.direction,
            Location::TimerControl => self.timer.control(),
            Location::TimerCounter => self.timer.counter(),
            Location::InterruptControl => self.interrupt_control(),
            Location::Options => self.rom.options,
            Location::Vectors(k) => self.rom.vectors[usize::from(k)],
            Location::PulldownA | Location::PulldownB | Location::Service | Location::Nothing => 0,
        }
    }

    // Writes a byte to an address.
    pub fn write(&mut self, address: u16, byte: u8)
        ensures { self.new ≡ written address byte self.old }
    {
        match locate(address) {
            Location::Ram(k) => self.ram[usize::from(k)] = byte,
            Location::PortA => self.ports.a.latch = byte,
            Location::PortB => self.ports.b.latch = byte % 64,
            Location::DirectionA => self.ports.a.direction = byte,
            Location::DirectionB => self.ports.b.direction = byte % 64,
            Location::PulldownA => self.ports.a.pulldown = byte,
            Location::PulldownB => self.ports.b.pulldown = byte % 64,
            Location::TimerControl => self.timer.write_control(byte),
            Location::InterruptControl => self.interrupt.write_control(byte),
            Location::Service => write_service(&mut self.timer, byte),
            Location::TimerCounter
            | Location::Eprom(_)
            | Location::Options
            | Location::Vectors(_)
            | Location::Nothing => {}
        }
    }
}
