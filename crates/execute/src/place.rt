// Where an instruction's operand lies.
ghost use Rattle.std.specs.Prelude.{◌≡◌};
ghost use Rattle.execute.specs.Place.{address_in, place_of, stored_at, value_at, word};

use board::reading::Reading;
use chip::state::{Chip, Registers};
use opcodes::{Addressing, Instruction};
use part::layout::branch_target;

// A register, a byte of the instruction itself, or an address.
#[derive(Clone, Copy)]
pub enum Place {
    Accumulator,
    Index,
    Immediate(u8),
    Memory(u16),
}

// The place that the addressing forms from the two bytes after the code, with the program counter past the instruction. Inherent instructions have none; the byte stands for it.
pub fn place_of(instruction: Instruction, registers: &Registers) -> Place
    ensures { result ≡ place_of instruction.row.addressing registers.now instruction.first instruction.second }
{
    let Instruction { row, first, second } = instruction;
    let byte = u16::from(first);
    let word = u16::from_be_bytes([first, second]);
    let x = u16::from(registers.x);
    match row.addressing {
        Addressing::Direct | Addressing::DirectRelative => Place::Memory(byte),
        Addressing::Immediate | Addressing::Inherent => Place::Immediate(first),
        Addressing::Relative => Place::Memory(branch_target(registers.pc, first)),
        Addressing::Extended => Place::Memory(word),
        Addressing::Indexed => Place::Memory(x),
        Addressing::IndexedByte => Place::Memory(x.wrapping_add(byte)),
        Addressing::IndexedWord => Place::Memory(x.wrapping_add(word)),
        Addressing::Accumulator => Place::Accumulator,
        Addressing::Index => Place::Index,
    }
}

impl Place {
    // The byte there.
    pub fn value(self, chip: &Chip, reading: &Reading) -> u8
        ensures { result ≡ value_at self reading.now chip.now }
    {
        match self {
            Place::Accumulator => chip.registers.a,
            Place::Index => chip.registers.x,
            Place::Immediate(byte) => byte,
            Place::Memory(at) => chip.read(reading, at),
        }
    }

    // Writes a byte there.
    pub fn store(self, chip: &mut Chip, byte: u8)
        ensures { chip.new ≡ stored_at self byte chip.old }
    {
        match self {
            Place::Accumulator => chip.registers.a = byte,
            Place::Index => chip.registers.x = byte,
            Place::Immediate(_) => {}
            Place::Memory(at) => chip.write(at, byte),
        }
    }

    // The address, for a jump.
    pub fn address(self) -> u16
        ensures { result ≡ address_in self }
    {
        match self {
            Place::Memory(at) => at,
            _ => 0,
        }
    }
}
