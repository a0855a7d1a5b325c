// Calls, interrupt entries, returns, and the modes that wait for an interrupt.
ghost use Rattle.std.specs.Prelude.{◌≡◌};
ghost use Rattle.execute.specs.Entry.{called, entered, entered_external, entered_timer, entry_bytes, pushed_all, restored, resumed, return_bytes, returned, stopped, unmasked, waited};

use alu::flags::Flags;
use chip::state::{Chip, Mode};
use part::layout::{Vector, wrapped};

// Pushes the program counter, low byte first.
fn push_pc(chip: &mut Chip)
    ensures { chip.new ≡ pushed_all (return_bytes chip.old) chip.old }
{
    let [high, low] = chip.registers.pc.to_be_bytes();
    chip.push(low);
    chip.push(high);
}

// Pushes the program counter and goes to this address.
pub fn call(chip: &mut Chip, to: u16)
    ensures { chip.new ≡ called to chip.old }
{
    push_pc(chip);
    chip.registers.pc = to;
}

// Pushes what an entry keeps: program counter, X, A and the condition byte.
fn push_registers(chip: &mut Chip)
    ensures { chip.new ≡ pushed_all (entry_bytes chip.old) chip.old }
{
    push_pc(chip);
    chip.push(chip.registers.x);
    chip.push(chip.registers.a);
    chip.push(chip.registers.flags.condition_byte());
}

// Pushes the registers, sets I and takes the vector.
pub fn enter(chip: &mut Chip, vector: Vector)
    ensures { chip.new ≡ entered vector chip.old }
{
    push_registers(chip);
    chip.registers.flags.i = true;
    chip.registers.pc = chip.rom.vector(vector);
}

// The external interrupt.
pub fn enter_external(chip: &mut Chip)
    ensures { chip.new ≡ entered_external chip.old }
{
    enter(chip, Vector::External);
    chip.interrupt.latch = false;
    chip.mode = Mode::Running;
}

// The timer's interrupt.
pub fn enter_timer(chip: &mut Chip)
    ensures { chip.new ≡ entered_timer chip.old }
{
    enter(chip, Vector::Timer);
    chip.mode = Mode::Running;
}

// RTS: pulls the program counter, high byte first.
pub fn return_from_call(chip: &mut Chip)
    ensures { chip.new ≡ returned chip.old }
{
    let high = chip.pull();
    let low = chip.pull();
    chip.registers.pc = wrapped(u16::from_be_bytes([high, low]));
}

// Pulls the condition byte, A and X.
fn pull_registers(chip: &mut Chip)
    ensures { chip.new ≡ restored chip.old }
{
    chip.registers.flags = Flags::from_condition_byte(chip.pull());
    chip.registers.a = chip.pull();
    chip.registers.x = chip.pull();
}

// RTI.
pub fn return_from_interrupt(chip: &mut Chip)
    ensures { chip.new ≡ resumed chip.old }
{
    pull_registers(chip);
    return_from_call(chip);
}

// Clears I and sets IRQE.
fn unmask(chip: &mut Chip)
    ensures { chip.new ≡ unmasked chip.old }
{
    chip.registers.flags.i = false;
    chip.interrupt.enable = true;
}

pub fn wait(chip: &mut Chip)
    ensures { chip.new ≡ waited chip.old }
{
    unmask(chip);
    chip.mode = Mode::Waiting;
}

pub fn stop(chip: &mut Chip)
    ensures { chip.new ≡ stopped chip.old }
{
    if chip.rom.swait() {
        wait(chip);
    } else {
        unmask(chip);
        chip.timer.quiet();
        chip.mode = Mode::Stopped;
    }
}
