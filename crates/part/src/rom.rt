// What an image gives the part: EPROM, option byte and vectors.
ghost use Rattle.std.specs.Prelude.{◌≡◌, length};
ghost use Rattle.part.specs.Rom.{blank_rom, rom_of, vector_in, swait, pdi, pirq, level, copen};

use crate::layout::{
    EPROM_FIRST, EPROM_LAST, OPTION_BYTE, VECTORS_FIRST, VECTORS_LAST, Vector, wrapped,
};
use bits::bit;

#[derive(Drop)]
pub struct Rom {
    pub eprom: [u8; 1232],
    pub options: u8,
    pub vectors: [u8; 8],
}

impl Rom {
    // All 0; no `Default`, which Rust has only for arrays of at most 32 elements.
    pub fn blank() -> Rom
        ensures { result ≡ blank_rom }
    {
        Rom {
            eprom: [0; 1232],
            options: 0,
            vectors: [0; 8],
        }
    }

    // Takes its bytes from an image.
    pub fn take(&mut self, image: &[u8])
        requires { length image.now ≡ 2048 }
        ensures { self.new ≡ rom_of image.now }
    {
        self.eprom
            .copy_from_slice(&image[usize::from(EPROM_FIRST)..=usize::from(EPROM_LAST)]);
        self.options = image[usize::from(OPTION_BYTE)];
        self.vectors.copy_from_slice(
            &image[usize::from(VECTORS_FIRST)..=usize::from(VECTORS_LAST)],
        );
    }

    // The address that a vector gives.
    pub fn vector(&self, vector: Vector) -> u16
        ensures { result ≡ vector_in vector self.now }
    {
        let at = usize::from(vector.address() - VECTORS_FIRST);
        wrapped(u16::from_be_bytes([self.vectors[at], self.vectors[at + 1]]))
    }

    // Five names over one test of a bit: the option byte has these five questions, and callers ask by name.

    // Whether STOP acts as WAIT.
    pub fn swait(&self) -> bool
        ensures { result ≡ swait self.now }
    {
        bit(self.options, 4)
    }

    // Whether the pulldowns are off.
    pub fn pdi(&self) -> bool
        ensures { result ≡ pdi self.now }
    {
        bit(self.options, 3)
    }

    // Whether PA0 to PA3 are interrupt inputs.
    pub fn pirq(&self) -> bool
        ensures { result ≡ pirq self.now }
    {
        bit(self.options, 2)
    }

    // Whether the level of the interrupt input requests, not only its edge.
    pub fn level(&self) -> bool
        ensures { result ≡ level self.now }
    {
        bit(self.options, 1)
    }

    // Whether the watchdog is on.
    pub fn copen(&self) -> bool
        ensures { result ≡ copen self.now }
    {
        bit(self.options, 0)
    }
}
