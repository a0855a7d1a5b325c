// One line of a listing: what stands at an address.
ghost use Rattle.std.specs.Prelude.{◌≡◌, ◌+◌, ◌%◌, ◌^◌, IfOk, string_bytes};
ghost use Rattle.opcodes.specs.Map.{row_of};
ghost use Rattle.listing.specs.Line.{byte_at, length_of, line_at, operand_of_line};
ghost use Rattle.listing.specs.Text.{bytes_text, instruction_text, line_text, columns_text};

use opcodes::{Instruction, Operand, Row, row};
use part::layout::{branch_target, wrapped};
use std::alloc::{AllocError, Global};

// The three bytes from the address on, and the instruction that the first of them begins, if it is a code of one.
#[derive(Clone, Copy)]
pub struct Line {
    pub address: u16,
    pub code: u8,
    pub first: u8,
    pub second: u8,
    pub row: Option<Row>,
}

// The byte at this address, which is taken as the part takes it; past the end of the image all bytes are 0.
pub fn byte_at(image: &[u8], address: u16) -> u8
    ensures { result ≡ byte_at image.now address }
{
    let at = usize::from(wrapped(address));
    image.get(at).copied().unwrap_or(0)
}

// What stands at this address.
pub fn line_at(image: &[u8], address: u16) -> Line
    ensures { result ≡ line_at image.now address }
{
    Line::read(address, |at| byte_at(image, at))
}

impl Line {
    // What stands at this address, where the function tells the byte at each.
    pub fn read<F: Fn(u16) -> u8>(address: u16, byte: F) -> Line
        requires { F.IsAlwaysCallable byte }
        ensures address { result.address ≡ address }
        ensures code { F.post byte address result.code }
        ensures first { F.post byte ((address + 1) % 2 ^ 16) result.first }
        ensures second { F.post byte ((address + 2) % 2 ^ 16) result.second }
        ensures row { result.row ≡ row_of result.code }
    {
        let code = byte(address);
        Line {
            address,
            code,
            first: byte(address.wrapping_add(1)),
            second: byte(address.wrapping_add(2)),
            row: row(code),
        }
    }

    // How many bytes belong to the line: a code without an instruction stands alone.
    pub fn length(&self) -> u8
        ensures { result ≡ length_of self.now }
    {
        match self.row {
            Some(row) => row.length,
            None => 1,
        }
    }

    // The operand of its instruction. A branch's offset is the last byte of the instruction.
    pub fn operand(&self) -> Operand
        ensures { result ≡ operand_of_line self.now }
    {
        let Some(row) = self.row else {
            return Operand::Nothing;
        };
        let next = self.address.wrapping_add(u16::from(row.length));
        let offset = if row.length == 3 {
            self.second
        } else {
            self.first
        };
        let instruction = Instruction {
            row,
            first: self.first,
            second: self.second,
        };
        instruction.operand(branch_target(next, offset))
    }

    // The bytes of the line, for a column.
    #[tactic(auto, using(opcodes::proofs::Hex::byte_output))]
    pub fn bytes_text(&self, heap: Global) -> Result<String, AllocError>
        ensures { IfOk result (λ s. string_bytes s ≡ bytes_text self.now) }
    {
        let Line {
            code,
            first,
            second,
            ..
        } = *self;
        match self.length() {
            1 => format!(in heap; "{code:02X}"),
            2 => format!(in heap; "{code:02X} {first:02X}"),
            _ => format!(in heap; "{code:02X} {first:02X} {second:02X}"),
        }
    }

    // Mnemonic and operand, for a column; a code without an instruction is a byte.
    #[tactic(auto, using(opcodes::proofs::Hex::byte_output))]
    pub fn instruction_text(&self, heap: Global) -> Result<String, AllocError>
        ensures { IfOk result (λ s. string_bytes s ≡ instruction_text self.now) }
    {
        let code = self.code;
        match self.row {
            Some(row) => {
                let operand = self.operand();
                format!(in heap; "{row} {operand}")
            }
            None => format!(in heap; "FCB ${code:02X}"),
        }
    }

    // Address, bytes, mnemonic, operand and cycles; a byte that is no instruction costs nothing.
    pub fn text(&self, heap: Global) -> Result<String, AllocError>
        ensures { IfOk result (λ s. string_bytes s ≡ line_text self.now) }
    {
        let bytes = self.bytes_text(heap)?;
        let instruction = self.instruction_text(heap)?;
        let cycles = match self.row {
            Some(row) => row.cycles.to_string(heap)?,
            None => String::from_str(heap, "-")?,
        };
        columns(
            heap,
            self.address,
            bytes.as_str(),
            instruction.as_str(),
            cycles.as_str(),
        )
    }
}

// The columns of a line. Its parts are padded as texts, since a Display of several parts cannot be padded.
#[tactic(auto, using(opcodes::proofs::Hex::word_output))]
pub(crate) fn columns(
    heap: Global,
    address: u16,
    bytes: &str,
    instruction: &str,
    last: &str,
) -> Result<String, AllocError>
    ensures { IfOk result (λ s. string_bytes s ≡ columns_text address bytes.now instruction.now last.now) }
{
    format!(in heap; "{address:04X}  {bytes:<8}  {instruction:<20}  {last}")
}
