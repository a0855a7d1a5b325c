// What a line calls for where no machine is offered.
ghost use Rattle.std.specs.Prelude.{◌≡◌, IfOk};
ghost use Rattle.console.specs.Request.{requested, BoardsAnswered, LineHeard};

use session::answer::Answer;
use session::failure::Failure;
use session::reply::Reply;
use session::session::Session;
use std::alloc::AllocError;

#[derive(Clone, Copy)]
pub enum Request {
    Said(Answer),
    // the listing of the image that the line's second word gives
    Listing,
}

// A board for a new machine is answered, and goes no further.
impl From<Reply> for Request {
    ghost from_gives = { λ reply r. r ≡ requested reply };

    fn from(reply: Reply) -> Request {
        match reply {
            Reply::Said(answer) => Request::Said(answer),
            Reply::Listing => Request::Listing,
            Reply::Begin(_) => Request::Said(Answer::Done),
        }
    }
}

// What a line calls for, which may be nothing, or why that cannot be done.
pub fn hear(
    session: &mut Session,
    line: &str,
) -> Result<Result<Option<Request>, Failure>, AllocError>
    ensures heard { IfOk result (λ request. LineHeard line.now session.old request session.new) }
    ensures boards { BoardsAnswered }
{
    Ok(session.line(line)?.map(|reply| reply.map(Request::from)))
}
