// What each operation does, with its operand's place. The chip is altered and the reading is not, so they are two parameters: a struct of both would be a pair of borrows that each caller makes anew.
ghost use Rattle.std.specs.Prelude.{◌≡◌, ℕ};
ghost use Rattle.chip.specs.Memory.{read, written};
ghost use Rattle.execute.specs.Perform.{branched_bit, branched_if, controlled, modified_at, performed, stored_from};

use crate::entry::{call, enter, return_from_call, return_from_interrupt, stop, wait};
use crate::place::{Place, place_of};
use crate::registers::{combine, multiply_registers, register_of};
use alu::bit::{is_set, with, without};
use alu::condition::holds;
use alu::modify::modify;
use board::reading::Reading;
use chip::state::Chip;
use opcodes::{Bit, Control, Instruction, Operation, ReadModifyWrite, Register};
use part::layout::{Vector, branch_target, wrapped};

// Goes on by a signed offset where the branch is taken.
fn branch_if(chip: &mut Chip, taken: bool, offset: u8)
    ensures { chip.new ≡ branched_if taken offset chip.old }
{
    if taken {
        chip.registers.pc = branch_target(chip.registers.pc, offset);
    }
}

// BRSET and BRCLR: C is the bit, and the branch is taken where the bit is as wanted.
fn branch_bit(chip: &mut Chip, reading: &Reading, bit: Bit, wanted: bool, at: u8, offset: u8)
    ensures { chip.new ≡ branched_bit bit wanted at offset reading.now chip.old }
{
    let found = is_set(bit, chip.read(reading, u16::from(at)));
    chip.registers.flags.c = found;
    branch_if(chip, found == wanted, offset);
}

// Reads a byte, changes it and writes it back.
fn change<F: FnOnce(u8) -> u8>(chip: &mut Chip, reading: &Reading, at: u8, changed: F)
    requires { F.IsAlwaysCallable changed }
    ensures { (byte : ℕ) × F.post changed (read reading.now at chip.old) byte × (chip.new ≡ written at byte chip.old) }
{
    let at = u16::from(at);
    let byte = chip.read(reading, at);
    chip.write(at, changed(byte));
}

// A read-modify-write; TST does not write.
fn modify_at(chip: &mut Chip, reading: &Reading, operation: ReadModifyWrite, place: Place)
    ensures { chip.new ≡ modified_at operation place reading.now chip.old }
{
    let byte = place.value(chip, reading);
    let new = modify(operation, &mut chip.registers.flags, byte);
    if !matches!(operation, ReadModifyWrite::Tst) {
        place.store(chip, new);
    }
}

// STA and STX.
fn store_from(chip: &mut Chip, register: Register, place: Place)
    ensures { chip.new ≡ stored_from register place chip.old }
{
    let byte = register_of(register, &chip.registers);
    chip.registers.flags.set_nz(byte);
    place.store(chip, byte);
}

// The instructions without an operand.
fn control(chip: &mut Chip, operation: Control)
    ensures { chip.new ≡ controlled operation chip.old }
{
    match operation {
        Control::Mul => multiply_registers(&mut chip.registers),
        Control::Tax => chip.registers.x = chip.registers.a,
        Control::Txa => chip.registers.a = chip.registers.x,
        Control::Clc => chip.registers.flags.c = false,
        Control::Sec => chip.registers.flags.c = true,
        Control::Cli => chip.registers.flags.i = false,
        Control::Sei => chip.registers.flags.i = true,
        Control::Rsp => chip.registers.sp = 255,
        Control::Nop => {}
        Control::Rti => return_from_interrupt(chip),
        Control::Rts => return_from_call(chip),
        Control::Swi => enter(chip, Vector::Swi),
        Control::Stop => stop(chip),
        Control::Wait => wait(chip),
    }
}

// What an instruction does; the program counter is past it.
pub fn perform(chip: &mut Chip, reading: &Reading, instruction: Instruction)
    ensures { chip.new ≡ performed instruction.row.operation instruction.row.addressing instruction.first instruction.second reading.now chip.old }
{
    let place = place_of(instruction, &chip.registers);
    let Instruction { row, first, second } = instruction;
    match row.operation {
        Operation::Read(operation) => {
            let byte = place.value(chip, reading);
            combine(operation, &mut chip.registers, byte);
        }
        Operation::Store(register) => store_from(chip, register, place),
        Operation::Branch(condition) => {
            let taken = holds(condition, &chip.registers.flags, reading.irq != 0);
            branch_if(chip, taken, first);
        }
        Operation::Modify(operation) => modify_at(chip, reading, operation, place),
        Operation::BranchIfSet(bit) => branch_bit(chip, reading, bit, true, first, second),
        Operation::BranchIfClear(bit) => branch_bit(chip, reading, bit, false, first, second),
        Operation::SetBit(bit) => change(chip, reading, first, |byte| with(bit, byte)),
        Operation::ClearBit(bit) => change(chip, reading, first, |byte| without(bit, byte)),
        Operation::Jump => chip.registers.pc = wrapped(place.address()),
        Operation::Call => call(chip, wrapped(place.address())),
        Operation::Control(operation) => control(chip, operation),
    }
}
