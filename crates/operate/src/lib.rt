// What a script does with a machine: its calls, and the text of their answers.
#![tactic(auto)]

pub mod answer;
pub mod call;
pub mod snapshot;
pub mod steps;
