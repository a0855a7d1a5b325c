// What the HC05 does with single bytes: bits, sums, shifts, flags, conditions, and the levels of a port's pins.
#![tactic(auto)]

pub mod bit;
pub mod condition;
pub mod flags;
pub mod modify;
pub mod outcome;
pub mod pins;
pub mod shift;
pub mod sum;
