// The mnemonic of an instruction, as a listing shows it.
ghost use Rattle.std.specs.Prelude.{◌≡◌, Some};
ghost use Rattle.opcodes.specs.Mnemonic.{branch_name, modify_name, read_name, control_name, name_of, suffix_of, mnemonic_of};

use crate::addressing::{Addressing, Row};
use crate::operation::{Condition, Control, Operation, ReadModifyWrite, Register, RegisterMemory};
use std::fmt;
use std::fmt::Display;

impl fmt::Display for Condition {
    ghost output = { λ it. Some (branch_name it) };

    fn fmt<W: fmt::Write>(&self, f: &mut fmt::Formatter<W>) -> fmt::Result {
        f.write_str(match self {
            Condition::Always => "BRA",
            Condition::Never => "BRN",
            Condition::Higher => "BHI",
            Condition::LowerOrSame => "BLS",
            Condition::CarryClear => "BCC",
            Condition::CarrySet => "BCS",
            Condition::NotEqual => "BNE",
            Condition::Equal => "BEQ",
            Condition::HalfCarryClear => "BHCC",
            Condition::HalfCarrySet => "BHCS",
            Condition::Plus => "BPL",
            Condition::Minus => "BMI",
            Condition::MaskClear => "BMC",
            Condition::MaskSet => "BMS",
            Condition::IrqLow => "BIL",
            Condition::IrqHigh => "BIH",
        })
    }
}

impl fmt::Display for ReadModifyWrite {
    ghost output = { λ it. Some (modify_name it) };

    fn fmt<W: fmt::Write>(&self, f: &mut fmt::Formatter<W>) -> fmt::Result {
        f.write_str(match self {
            ReadModifyWrite::Neg => "NEG",
            ReadModifyWrite::Com => "COM",
            ReadModifyWrite::Lsr => "LSR",
            ReadModifyWrite::Ror => "ROR",
            ReadModifyWrite::Asr => "ASR",
            ReadModifyWrite::Lsl => "LSL",
            ReadModifyWrite::Rol => "ROL",
            ReadModifyWrite::Dec => "DEC",
            ReadModifyWrite::Inc => "INC",
            ReadModifyWrite::Tst => "TST",
            ReadModifyWrite::Clr => "CLR",
        })
    }
}

impl fmt::Display for RegisterMemory {
    ghost output = { λ it. Some (read_name it) };

    fn fmt<W: fmt::Write>(&self, f: &mut fmt::Formatter<W>) -> fmt::Result {
        f.write_str(match self {
            RegisterMemory::Sub => "SUB",
            RegisterMemory::Cmp => "CMP",
            RegisterMemory::Sbc => "SBC",
            RegisterMemory::Cpx => "CPX",
            RegisterMemory::And => "AND",
            RegisterMemory::Bit => "BIT",
            RegisterMemory::Lda => "LDA",
            RegisterMemory::Eor => "EOR",
            RegisterMemory::Adc => "ADC",
            RegisterMemory::Ora => "ORA",
            RegisterMemory::Add => "ADD",
            RegisterMemory::Ldx => "LDX",
        })
    }
}

impl fmt::Display for Control {
    ghost output = { λ it. Some (control_name it) };

    fn fmt<W: fmt::Write>(&self, f: &mut fmt::Formatter<W>) -> fmt::Result {
        f.write_str(match self {
            Control::Mul => "MUL",
            Control::Tax => "TAX",
            Control::Txa => "TXA",
            Control::Clc => "CLC",
            Control::Sec => "SEC",
            Control::Cli => "CLI",
            Control::Sei => "SEI",
            Control::Rsp => "RSP",
            Control::Nop => "NOP",
            Control::Rti => "RTI",
            Control::Rts => "RTS",
            Control::Swi => "SWI",
            Control::Stop => "STOP",
            Control::Wait => "WAIT",
        })
    }
}

impl Addressing {
    // The letter of the register that a read-modify-write works on; a Display would be the addressing's own text.
    fn suffix(self) -> &'static str
        ensures { result.now ≡ suffix_of self }
    {
        match self {
            Addressing::Accumulator => "A",
            Addressing::Index => "X",
            _ => "",
        }
    }
}

// The mnemonic of a row without a register's letter; a relative call is BSR.
#[derive(Clone, Copy)]
struct Name(Row);

impl fmt::Display for Name {
    ghost output = { λ name. Some (name_of name.0) };

    fn fmt<W: fmt::Write>(&self, f: &mut fmt::Formatter<W>) -> fmt::Result {
        match self.0.operation {
            Operation::BranchIfSet(_) => f.write_str("BRSET"),
            Operation::BranchIfClear(_) => f.write_str("BRCLR"),
            Operation::SetBit(_) => f.write_str("BSET"),
            Operation::ClearBit(_) => f.write_str("BCLR"),
            Operation::Branch(condition) => condition.fmt(f),
            Operation::Modify(modify) => modify.fmt(f),
            Operation::Read(read) => read.fmt(f),
            Operation::Store(Register::Accumulator) => f.write_str("STA"),
            Operation::Store(Register::Index) => f.write_str("STX"),
            Operation::Jump => f.write_str("JMP"),
            Operation::Call => f.write_str(match self.0.addressing {
                Addressing::Relative => "BSR",
                _ => "JSR",
            }),
            Operation::Control(control) => control.fmt(f),
        }
    }
}

impl fmt::Display for Row {
    ghost output = { λ row. Some (mnemonic_of row) };

    fn fmt<W: fmt::Write>(&self, f: &mut fmt::Formatter<W>) -> fmt::Result {
        let suffix = self.addressing.suffix();
        write!(f, "{}{suffix}", Name(*self))
    }
}
