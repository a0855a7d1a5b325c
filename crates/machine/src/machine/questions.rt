// Questions to a machine, which alter nothing.
ghost use Rattle.std.specs.Prelude.{◌≡◌};
ghost use Rattle.machine.specs.Questions.{peeked, pins_now};
ghost use Rattle.machine.specs.State.{state};

use super::Machine;
use crate::answer::Pins;
use board::contract::Board;
use chip::state::{Interrupt, Mode, Ports, Registers};
use part::rom::Rom;
use timer::state::Timer;

impl<B: Board> Machine<B> {
    pub fn registers(&self) -> Registers
        ensures { result ≡ (state self.now).chip.registers }
    {
        self.fitted.chip.registers
    }

    // Latches, directions and pulldown bits.
    pub fn ports(&self) -> Ports
        ensures { result ≡ (state self.now).chip.ports }
    {
        self.fitted.chip.ports
    }

    // The levels of the pins now.
    pub fn pins(&self) -> Pins
        ensures { result ≡ pins_now B.Board (state self.now) }
    {
        let reading = self.fitted.board.show();
        Pins {
            a: self.fitted.chip.pins_a(&reading),
            b: self.fitted.chip.pins_b(&reading),
            irq: reading.irq,
        }
    }

    pub fn timer(&self) -> Timer
        ensures { result ≡ (state self.now).chip.timer }
    {
        self.fitted.chip.timer
    }

    pub fn interrupt(&self) -> Interrupt
        ensures { result ≡ (state self.now).chip.interrupt }
    {
        self.fitted.chip.interrupt
    }

    pub fn mode(&self) -> Mode
        ensures { result ≡ (state self.now).chip.mode }
    {
        self.fitted.chip.mode
    }

    pub fn ram(&self) -> &[u8; 64]
        ensures { result.now ≡ (state self.now).chip.ram }
    {
        &self.fitted.chip.ram
    }

    // What the image gave; all 0 without one.
    pub fn rom(&self) -> &Rom
        ensures { result.now ≡ (state self.now).chip.rom }
    {
        &self.fitted.chip.rom
    }

    pub fn has_image(&self) -> bool
        ensures { result ≡ (state self.now).loaded }
    {
        self.loaded
    }

    // The cycles counted since the image was loaded.
    pub fn total(&self) -> u64
        ensures { result ≡ (state self.now).total }
    {
        self.total
    }

    pub fn board(&self) -> &B
        ensures { result.now ≡ (state self.now).board }
    {
        &self.fitted.board
    }

    // What a read of this address would answer now.
    pub fn peek(&self, address: u16) -> u8
        ensures { result ≡ peeked B.Board address (state self.now) }
    {
        self.fitted.chip.read(&self.fitted.board.show(), address)
    }
}
