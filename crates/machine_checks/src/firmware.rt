// Images and boards for the tests.
use board::reading::Reading;
use board::refused::*;
use board::switches::*;
use machine::machine::Machine;
use part::image::*;
use std::test::Fail;

// An image with this code at $0300, where it starts, and this option byte.
pub(crate) fn image_of(code: &[u8], options: u8) -> [u8; 2048] {
    let mut image = [0u8; 2048];
    for (place, byte) in image[0x300..0x7D0].iter_mut().zip(code) {
        *place = *byte;
    }
    image[0x7F1] = options;
    image[0x7FE] = 0x03;
    image
}

// Port A driven at this level where its open bits are 0, port B open, IRQ at 1.
pub(crate) fn port_a(level_a: u8, open_a: u8) -> Reading {
    Reading {
        level_a,
        open_a,
        level_b: 0,
        open_b: 63,
        irq: 1,
    }
}

// A machine on open pins, with this code and no options.
pub(crate) fn machine_with(code: &[u8]) -> Result<Machine<Switches>, Fail> {
    let mut machine = Machine::new(Switches::new(port_a(0, 255))?);
    machine.load(&image_of(code, 0))?;
    Ok(machine)
}
