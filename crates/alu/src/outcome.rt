// What subtractions, shifts and rotates answer.

// A byte, and the C that goes with it: the borrow, or the bit moved out.
#[derive(Clone, Copy)]
pub struct Outcome {
    pub value: u8,
    pub carry: bool,
}
