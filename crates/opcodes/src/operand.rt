// The operand of an instruction, as a listing shows it.
ghost use Rattle.std.specs.Prelude.{◌≡◌, Some};
ghost use Rattle.opcodes.specs.Operand.{bit_of, operand_of, bit_number, operand_text};

use crate::addressing::{Addressing, Instruction};
use crate::operation::{Bit, Operation};
use std::fmt;

// Nothing has an empty text, so that each instruction has an operand and a listing prints all alike.
// Target is where a branch goes, BitDirect a bit of a byte in memory, and BitBranch such a bit and a target.
#[derive(Clone, Copy)]
pub enum Operand {
    Nothing,
    Immediate(u8),
    Direct(u8),
    Extended(u16),
    Indexed,
    IndexedByte(u8),
    IndexedWord(u16),
    Target(u16),
    BitDirect(Bit, u8),
    BitBranch(Bit, u8, u16),
}

impl Operation {
    // The bit that the operation names.
    fn bit(self) -> Option<Bit>
        ensures { result ≡ bit_of self }
    {
        match self {
            Operation::BranchIfSet(bit)
            | Operation::BranchIfClear(bit)
            | Operation::SetBit(bit)
            | Operation::ClearBit(bit) => Some(bit),
            _ => None,
        }
    }
}

impl Instruction {
    // The operand, where a branch goes to this target.
    pub fn operand(&self, target: u16) -> Operand
        ensures { result ≡ operand_of self.now.row self.now.first self.now.second target }
    {
        let word = u16::from_be_bytes([self.first, self.second]);
        match self.row.addressing {
            Addressing::Inherent | Addressing::Accumulator | Addressing::Index => Operand::Nothing,
            Addressing::Immediate => Operand::Immediate(self.first),
            Addressing::Direct => match self.row.operation.bit() {
                Some(bit) => Operand::BitDirect(bit, self.first),
                None => Operand::Direct(self.first),
            },
            Addressing::Extended => Operand::Extended(word),
            Addressing::Indexed => Operand::Indexed,
            Addressing::IndexedByte => Operand::IndexedByte(self.first),
            Addressing::IndexedWord => Operand::IndexedWord(word),
            Addressing::Relative => Operand::Target(target),
            Addressing::DirectRelative => match self.row.operation.bit() {
                Some(bit) => Operand::BitBranch(bit, self.first, target),
                None => Operand::Target(target),
            },
        }
    }
}

impl From<Bit> for u8 {
    ghost from_gives = { λ bit number. number ≡ bit_number bit };

    fn from(bit: Bit) -> u8 {
        bit as u8
    }
}

impl fmt::Display for Operand {
    ghost output = { λ operand. Some (operand_text operand) };

    #[tactic(auto, using(crate::proofs::Hex::byte_output, crate::proofs::Hex::word_output, crate::proofs::Hex::bit_digit))]
    fn fmt<W: fmt::Write>(&self, f: &mut fmt::Formatter<W>) -> fmt::Result {
        match *self {
            Operand::Nothing => Ok(()),
            Operand::Immediate(byte) => write!(f, "#${byte:02X}"),
            Operand::Direct(byte) => write!(f, "${byte:02X}"),
            Operand::Extended(word) | Operand::Target(word) => write!(f, "${word:04X}"),
            Operand::Indexed => f.write_str(",X"),
            Operand::IndexedByte(byte) => write!(f, "${byte:02X},X"),
            Operand::IndexedWord(word) => write!(f, "${word:04X},X"),
            Operand::BitDirect(bit, byte) => write!(f, "{},${byte:02X}", u8::from(bit)),
            Operand::BitBranch(bit, byte, target) => {
                write!(f, "{},${byte:02X},${target:04X}", u8::from(bit))
            }
        }
    }
}
