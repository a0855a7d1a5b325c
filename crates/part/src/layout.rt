// Where memories, option byte and vectors of the part lie; the addresses of its registers stand in the map of the chip.
ghost use Rattle.std.specs.Prelude.{◌≡◌, ◌%◌, Some};
ghost use Rattle.part.specs.Layout.{address_space, between, branch_target, executable, from_image, vector_address, vector_name};

use std::fmt;

// Addresses are taken modulo this; an image has as many bytes.
pub const ADDRESS_SPACE: u16 = 2048;

// RAM, in which the stack lies.
pub const RAM_FIRST: u16 = 0x00C0;

pub const RAM_LAST: u16 = 0x00FF;

pub const EPROM_FIRST: u16 = 0x0300;

pub const EPROM_LAST: u16 = 0x07CF;

pub const OPTION_BYTE: u16 = 0x07F1;

pub const VECTORS_FIRST: u16 = 0x07F8;

pub const VECTORS_LAST: u16 = 0x07FF;

// Where the program counter is taken from.
#[derive(Clone, Copy, PartialEq, Eq, Debug)]
pub enum Vector {
    Timer,
    External,
    Swi,
    Reset,
}

impl Vector {
    // All four, by rising address.
    pub const ALL: [Vector; 4] = [Vector::Timer, Vector::External, Vector::Swi, Vector::Reset];

    // The address of its high byte; the low byte follows.
    pub fn address(self) -> u16
        ensures { result ≡ vector_address self }
    {
        match self {
            Vector::Timer => 0x07F8,
            Vector::External => 0x07FA,
            Vector::Swi => 0x07FC,
            Vector::Reset => 0x07FE,
        }
    }
}

// Its name: `timer`, `external`, `SWI`, `reset`.
impl fmt::Display for Vector {
    ghost output = { λ vector. Some (vector_name vector) };

    fn fmt<W: fmt::Write>(&self, f: &mut fmt::Formatter<W>) -> fmt::Result {
        f.write_str(match self {
            Vector::Timer => "timer",
            Vector::External => "external",
            Vector::Swi => "SWI",
            Vector::Reset => "reset",
        })
    }
}

// The address as the part sees it.
pub fn wrapped(address: u16) -> u16
    ensures { result ≡ address % address_space }
{
    address % ADDRESS_SPACE
}

// Whether an address lies in a stretch from first to last.
pub fn between(first: u16, last: u16, address: u16) -> bool
    ensures { result ≡ between first last address }
{
    (first..=last).contains(&address)
}

// Whether the byte at this address comes from the image: EPROM, option byte or vectors.
pub fn from_image(address: u16) -> bool
    ensures { result ≡ from_image address }
{
    between(EPROM_FIRST, EPROM_LAST, address)
        || address == OPTION_BYTE
        || between(VECTORS_FIRST, VECTORS_LAST, address)
}

// Whether an instruction may lie at this address: in RAM or EPROM.
pub fn executable(address: u16) -> bool
    ensures { result ≡ executable address }
{
    between(EPROM_FIRST, EPROM_LAST, address) || between(RAM_FIRST, RAM_LAST, address)
}

// Where a branch goes: its offset, a signed byte, is counted from the address of the next instruction.
pub fn branch_target(next: u16, offset: u8) -> u16
    ensures { result ≡ branch_target next offset }
{
    wrapped(next.wrapping_add_signed(i16::from(offset.cast_signed())))
}
