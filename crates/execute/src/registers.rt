// The instructions that take a byte to a register or work on registers alone.
ghost use Rattle.std.specs.Prelude.{◌≡◌};
ghost use Rattle.execute.specs.Registers.{added, combined, compared, kept, multiplied, register_of, subtracted};

use alu::outcome::Outcome;
use alu::sum::{Sum, add, multiply, subtract};
use chip::state::Registers;
use opcodes::{Register, RegisterMemory};

// A is this byte, with its N and Z.
fn keep(registers: &mut Registers, byte: u8)
    ensures { registers.new ≡ kept byte registers.old }
{
    registers.a = byte;
    registers.flags.set_nz(byte);
}

// A is this sum, with H, N, Z and C.
fn keep_sum(registers: &mut Registers, sum: Sum)
    ensures { registers.new ≡ added sum registers.old }
{
    registers.a = sum.value;
    registers.flags.h = sum.half;
    registers.flags.set_nzc(sum.value, sum.carry);
}

// N, Z and C of a difference.
fn compare(registers: &mut Registers, difference: Outcome)
    ensures { registers.new ≡ compared difference registers.old }
{
    registers.flags.set_nzc(difference.value, difference.carry);
}

// A is this difference, with N, Z and C.
fn keep_difference(registers: &mut Registers, difference: Outcome)
    ensures { registers.new ≡ subtracted difference registers.old }
{
    registers.a = difference.value;
    compare(registers, difference);
}

// An instruction with this byte.
pub fn combine(operation: RegisterMemory, registers: &mut Registers, byte: u8)
    ensures { registers.new ≡ combined operation byte registers.old }
{
    let a = registers.a;
    let carry = registers.flags.c;
    match operation {
        RegisterMemory::Sub => keep_difference(registers, subtract(a, byte, false)),
        RegisterMemory::Sbc => keep_difference(registers, subtract(a, byte, carry)),
        RegisterMemory::Cmp => compare(registers, subtract(a, byte, false)),
        RegisterMemory::Cpx => compare(registers, subtract(registers.x, byte, false)),
        RegisterMemory::Add => keep_sum(registers, add(a, byte, false)),
        RegisterMemory::Adc => keep_sum(registers, add(a, byte, carry)),
        RegisterMemory::And => keep(registers, a & byte),
        RegisterMemory::Ora => keep(registers, a | byte),
        RegisterMemory::Eor => keep(registers, a ^ byte),
        RegisterMemory::Lda => keep(registers, byte),
        RegisterMemory::Bit => registers.flags.set_nz(a & byte),
        RegisterMemory::Ldx => {
            registers.x = byte;
            registers.flags.set_nz(byte);
        }
    }
}

// MUL: the product of A and X, with its high byte in X and its low byte in A.
pub fn multiply_registers(registers: &mut Registers)
    ensures { registers.new ≡ multiplied registers.old }
{
    let (high, low) = multiply(registers.a, registers.x);
    registers.x = high;
    registers.a = low;
    registers.flags.h = false;
    registers.flags.c = false;
}

// The register that a store writes.
pub fn register_of(register: Register, registers: &Registers) -> u8
    ensures { result ≡ register_of register registers.now }
{
    match register {
        Register::Accumulator => registers.a,
        Register::Index => registers.x,
    }
}
