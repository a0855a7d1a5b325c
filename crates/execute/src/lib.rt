// One instruction on the chip, with a reading at its pins; and the entries of interrupts.
#![tactic(auto)]

pub mod entry;
pub mod fetch;
pub mod perform;
pub mod place;
pub mod registers;
