// What stands outside the microcontroller's pins: readings, outputs, and the boards that show the one and are told the other.
#![tactic(auto)]

pub mod any;
pub mod contract;
pub mod matrix;
pub mod reading;
pub mod refused;
pub mod schedule;
pub mod switches;
