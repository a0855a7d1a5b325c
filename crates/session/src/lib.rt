// A script's session: what each line calls for, the board that stands alone, the images, and the text of every answer.
#![tactic(auto)]

pub mod alone;
pub mod answer;
pub mod boards;
pub mod failure;
pub mod image;
pub mod lines;
pub mod reply;
pub mod session;
