// What the opcode table says of one code.
use crate::operation::Operation;

// Where the operand is. Accumulator and Index are a read-modify-write on the register itself;
// Indexed has no offset, IndexedByte and IndexedWord one of 8 and 16 bits; DirectRelative is a bit test and branch.
#[derive(Clone, Copy)]
pub enum Addressing {
    Inherent,
    Accumulator,
    Index,
    Immediate,
    Direct,
    Extended,
    Indexed,
    IndexedByte,
    IndexedWord,
    Relative,
    DirectRelative,
}

// The length is in bytes, the code's own included; the cycles are those of the internal clock.
#[derive(Clone, Copy)]
pub struct Row {
    pub operation: Operation,
    pub addressing: Addressing,
    pub length: u8,
    pub cycles: u8,
}

// An instruction: its row, and the two bytes after its code; the row's length says how many of them are its own.
#[derive(Clone, Copy)]
pub struct Instruction {
    pub row: Row,
    pub first: u8,
    pub second: u8,
}
