// One step of a chip on its board.
#![tactic(auto)]

pub mod action;
pub mod answer;
pub mod step;
