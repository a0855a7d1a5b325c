// The multifunction timer with the watchdog's stage: its registers, and what cycles make of it.
#![tactic(auto)]

pub mod clock;
pub mod control;
pub mod state;
