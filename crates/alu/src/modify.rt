// The operations that read a byte and write it back.
ghost use Rattle.std.specs.Prelude.{◌≡◌};
ghost use Rattle.alu.specs.Modify.{outcome_of, modified_byte, modified_flags};

use crate::flags::Flags;
use crate::outcome::Outcome;
use crate::shift::{left, right};
use crate::sum::subtract;
use opcodes::ReadModifyWrite;

// The new byte and the new C.
fn outcome_of(operation: ReadModifyWrite, byte: u8, carry: bool) -> Outcome
    ensures { result ≡ outcome_of operation byte carry }
{
    match operation {
        ReadModifyWrite::Neg => subtract(0, byte, false),
        ReadModifyWrite::Com => Outcome {
            value: !byte,
            carry: true,
        },
        ReadModifyWrite::Lsr => right(byte, false),
        ReadModifyWrite::Ror => right(byte, carry),
        ReadModifyWrite::Asr => right(byte, byte >= 128),
        ReadModifyWrite::Lsl => left(byte, false),
        ReadModifyWrite::Rol => left(byte, carry),
        ReadModifyWrite::Dec => Outcome {
            value: byte.wrapping_sub(1),
            carry,
        },
        ReadModifyWrite::Inc => Outcome {
            value: byte.wrapping_add(1),
            carry,
        },
        ReadModifyWrite::Tst => Outcome { value: byte, carry },
        ReadModifyWrite::Clr => Outcome { value: 0, carry },
    }
}

// The byte that the operation makes of this one; the flags become its flags.
pub fn modify(operation: ReadModifyWrite, flags: &mut Flags, byte: u8) -> u8
    ensures value { result ≡ modified_byte operation flags.old byte }
    ensures flags { flags.new ≡ modified_flags operation flags.old byte }
{
    let outcome = outcome_of(operation, byte, flags.c);
    flags.set_nzc(outcome.value, outcome.carry);
    outcome.value
}
