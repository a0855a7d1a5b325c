// Examples of each library on small cases, each proved safe and then run.
#![tactic(auto)]

#[cfg(test)]
mod boards;
#[cfg(test)]
mod hashes;
#[cfg(test)]
mod image;
#[cfg(test)]
mod listing_text;
#[cfg(test)]
mod opcode_rows;
#[cfg(test)]
mod script_lines;
#[cfg(test)]
mod sessions;
