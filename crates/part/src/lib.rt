// The MC68HC705J1A as an address map, the check of an image for it, and what an image gives it.
#![tactic(auto)]

pub mod image;
pub mod layout;
pub mod rom;
