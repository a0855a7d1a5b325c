// The timer's registers $0008 and $0009, its interrupt request, and what a service, a stop and a reset do to it.
ghost use Rattle.std.specs.Prelude.{◌≡◌};
ghost use Rattle.timer.specs.Control.{control, control_written, counter, requests, serviced, quieted, at_reset, zeroed};

use crate::state::Timer;
use bits::{bit, flag};

impl Timer {
    // All 0.
    pub fn new() -> Timer
        ensures { result ≡ zeroed }
    {
        Timer::default()
    }

    // What $0008 reads.
    pub fn control(&self) -> u8
        ensures { result ≡ control self.now }
    {
        flag(self.tof, 128)
            + flag(self.rtif, 64)
            + flag(self.toie, 32)
            + flag(self.rtie, 16)
            + self.rate % 4
    }

    // A write to $0008: enables and rate; a 1 in bit 3 clears TOF, in bit 2 RTIF.
    pub fn write_control(&mut self, byte: u8)
        ensures { self.new ≡ control_written byte self.old }
    {
        self.tof = self.tof && !bit(byte, 3);
        self.rtif = self.rtif && !bit(byte, 2);
        self.toie = bit(byte, 5);
        self.rtie = bit(byte, 4);
        self.rate = byte % 4;
    }

    // What $0009 reads: a quarter of t.
    pub fn counter(&self) -> u8
        ensures { result ≡ counter self.now }
    {
        let [low, ..] = (self.t / 4).to_le_bytes();
        low
    }

    // Whether it asks for an interrupt.
    pub fn requests(&self) -> bool
        ensures { result ≡ requests self.now }
    {
        self.tof && self.toie || self.rtif && self.rtie
    }

    // The watchdog is serviced: its stage is 0.
    pub fn service(&mut self)
        ensures { self.new ≡ serviced self.old }
    {
        self.stage = 0;
    }

    // STOP clears the flags and the enables.
    pub fn quiet(&mut self)
        ensures { self.new ≡ quieted self.old }
    {
        self.tof = false;
        self.rtif = false;
        self.toie = false;
        self.rtie = false;
    }

    // A reset: t and stage 0, $0008 $03.
    pub fn reset(&mut self)
        ensures { self.new ≡ at_reset }
    {
        *self = Timer {
            rate: 3,
            ..Timer::new()
        };
    }
}
