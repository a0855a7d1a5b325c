// The opcode table of the HC05, and the text of an instruction for a listing.
#![tactic(auto)]

mod addressing;
mod mnemonic;
mod operand;
mod operation;
mod table;

pub use addressing::{Addressing, Instruction, Row};
pub use operand::Operand;
pub use operation::{
    Bit, Condition, Control, Operation, ReadModifyWrite, Register, RegisterMemory,
};
pub use table::{instruction_count, row};
