// The chip but for its instructions: what it holds, its address map, pins, registers and stack, a reset, and one cycle.
#![tactic(auto)]

pub mod cycle;
pub mod map;
pub mod memory;
pub mod pins;
pub mod reset;
pub mod stack;
pub mod state;
