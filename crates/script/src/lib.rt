// The script language of the bench programs: what each line asks for.
#![tactic(auto)]

pub mod argument;
pub mod call;
pub mod parse;
