// The conditions of branches.
ghost use Rattle.std.specs.Prelude.{◌≡◌};
ghost use Rattle.alu.specs.Condition.{condition_holds};

use crate::flags::Flags;
use opcodes::Condition;

// Whether a branch with this condition is taken, at these flags and this level of the IRQ pin.
pub fn holds(condition: Condition, flags: &Flags, irq_high: bool) -> bool
    ensures { result ≡ condition_holds condition flags.now irq_high }
{
    match condition {
        Condition::Always => true,
        Condition::Never => false,
        Condition::Higher => !(flags.c || flags.z),
        Condition::LowerOrSame => flags.c || flags.z,
        Condition::CarryClear => !flags.c,
        Condition::CarrySet => flags.c,
        Condition::NotEqual => !flags.z,
        Condition::Equal => flags.z,
        Condition::HalfCarryClear => !flags.h,
        Condition::HalfCarrySet => flags.h,
        Condition::Plus => !flags.n,
        Condition::Minus => flags.n,
        Condition::MaskClear => !flags.i,
        Condition::MaskSet => flags.i,
        Condition::IrqLow => !irq_high,
        Condition::IrqHigh => irq_high,
    }
}
