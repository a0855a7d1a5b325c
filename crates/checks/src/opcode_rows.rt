// Known rows, and known lines of a listing.
use opcodes::{Instruction, row};
use std::alloc::Global;
use std::process::Abort;
use std::test::Fail;

// The code has an instruction of so many bytes and cycles.
fn costs(rt: &impl Abort, name: &str, code: u8, length: u8, cycles: u8) -> Result<(), Fail> {
    let row = row(code).ok_or("no instruction")?;
    assert!(rt; row.length == length && row.cycles == cycles, "{name}");
    Ok(())
}

// The mnemonic, a space and the operand, where $0312 is the address that a branch goes to.
fn lists(
    rt: &impl Abort,
    heap: Global,
    code: u8,
    first: u8,
    second: u8,
    text: &str,
) -> Result<(), Fail> {
    let row = row(code).ok_or("no instruction")?;
    let operand = Instruction { row, first, second }.operand(0x0312);
    let line = format!(in heap; "{row} {operand}")?;
    assert!(rt; line.as_str() == text);
    Ok(())
}

#[test]
fn lengths_and_cycles(rt: HostRuntime) -> Result<(), Fail> {
    costs(&rt, "LDA immediate", 0xA6, 2, 2)?;
    costs(&rt, "MUL", 0x42, 1, 11)?;
    costs(&rt, "JSR with a word offset", 0xDD, 3, 7)?;
    costs(&rt, "TST with a byte offset", 0x6D, 2, 5)?;
    assert!(rt; row(0x9E).is_none(), "no instruction");
    Ok(())
}

#[test]
fn memory_lines(rt: HostRuntime) -> Result<(), Fail> {
    lists(&rt, rt.alloc(), 0xA6, 0x05, 0x00, "LDA #$05")?;
    lists(&rt, rt.alloc(), 0xCC, 0x03, 0x10, "JMP $0310")?;
    lists(&rt, rt.alloc(), 0xD6, 0x01, 0xFF, "LDA $01FF,X")?;
    lists(&rt, rt.alloc(), 0xEF, 0x1E, 0x00, "STX $1E,X")?;
    lists(&rt, rt.alloc(), 0x7D, 0x00, 0x00, "TST ,X")
}

#[test]
fn bit_and_branch_lines(rt: HostRuntime) -> Result<(), Fail> {
    lists(&rt, rt.alloc(), 0x06, 0x1E, 0x00, "BRSET 3,$1E,$0312")?;
    lists(&rt, rt.alloc(), 0x1F, 0xC0, 0x00, "BCLR 7,$C0")?;
    lists(&rt, rt.alloc(), 0xAD, 0x10, 0x00, "BSR $0312")?;
    lists(&rt, rt.alloc(), 0x58, 0x00, 0x00, "LSLX ")
}
