// What lies at an address.
ghost use Rattle.std.specs.Prelude.{◌≡◌};
ghost use Rattle.chip.specs.Map.{Inside, location_of, register_at};

use part::layout::{
    EPROM_FIRST, EPROM_LAST, RAM_FIRST, RAM_LAST, VECTORS_FIRST, VECTORS_LAST, between, wrapped,
};

// A place of the chip; RAM, EPROM and vectors with the byte's place in them. Nothing is one of them, since a read and a write treat it as they do others: it reads 0 and ignores a byte.
#[derive(Clone, Copy)]
pub enum Location {
    PortA,
    PortB,
    DirectionA,
    DirectionB,
    TimerControl,
    TimerCounter,
    InterruptControl,
    PulldownA,
    PulldownB,
    Ram(u16),
    Eprom(u16),
    Service,
    Options,
    Vectors(u16),
    Nothing,
}

// The place of an address, which is taken modulo the address space.
pub fn locate(address: u16) -> Location
    ensures is { result ≡ location_of address }
    ensures inside { Inside result }
{
    let at = wrapped(address);
    if between(EPROM_FIRST, EPROM_LAST, at) {
        Location::Eprom(at - EPROM_FIRST)
    } else if between(RAM_FIRST, RAM_LAST, at) {
        Location::Ram(at - RAM_FIRST)
    } else if between(VECTORS_FIRST, VECTORS_LAST, at) {
        Location::Vectors(at - VECTORS_FIRST)
    } else {
        register(at)
    }
}

// The place of an address outside RAM, EPROM and vectors.
fn register(at: u16) -> Location
    ensures is { result ≡ register_at at }
    ensures inside { Inside result }
{
    match at {
        0x0000 => Location::PortA,
        0x0001 => Location::PortB,
        0x0004 => Location::DirectionA,
        0x0005 => Location::DirectionB,
        0x0008 => Location::TimerControl,
        0x0009 => Location::TimerCounter,
        0x000A => Location::InterruptControl,
        0x0010 => Location::PulldownA,
        0x0011 => Location::PulldownB,
        0x07F0 => Location::Service,
        0x07F1 => Location::Options,
        _ => Location::Nothing,
    }
}
