// What a line of a script calls for.
use crate::answer::Answer;
use crate::failure::Failure;
use board::any::AnyBoard;

#[derive(Clone, Copy)]
pub enum Reply {
    Said(Answer),
    // the listing of the image that the line's second word gives
    Listing,
    // a new machine on this board
    Begin(AnyBoard<'static>),
}

// A line may call for nothing, or for what cannot be done.
pub type Outcome = Result<Option<Reply>, Failure>;
