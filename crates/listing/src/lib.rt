// A listing of an image: the instruction at each address, as a linear sweep of the EPROM meets it.
#![tactic(auto)]

pub mod line;
pub mod sweep;
pub mod vectors;
