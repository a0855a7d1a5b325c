// The script language of the bench program with machines: the script language, and the calls of a machine.
#![tactic(auto)]

pub mod call;
pub mod parse;
