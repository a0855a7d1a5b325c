// A machine: the chip, its count of cycles and its board.
#![tactic(auto)]

pub mod answer;
pub mod machine;
