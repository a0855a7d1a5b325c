// The text of a script: lines, words, numbers, byte strings and their hash.
#![tactic(auto)]

pub mod fnv;
pub mod hex;
pub mod hex_text;
pub mod line;
pub mod number;
pub mod word;
