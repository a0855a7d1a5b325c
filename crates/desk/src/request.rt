// What a line of a script calls for where machines are at hand.
ghost use Rattle.std.specs.Prelude.{IfOk};
ghost use Rattle.desk.specs.Request.{LineRead};

use orders::call::{MachineCall, Order};
use orders::parse::parse_order;
use session::failure::Failure;
use session::reply::Reply;
use session::session::Session;
use std::alloc::AllocError;
use text::line::is_skipped;

#[derive(Clone, Copy)]
pub enum Request {
    OfScript(Reply),
    // the load of the image that the line's second word gives
    Load,
    OfMachine(MachineCall),
    // so many steps, told line by line
    Trace(u32),
}

// What a line calls for, which may be nothing, or why that cannot be done. The two tests before the call are those of `Session::line`: one line for both languages would take the call as a closure over the session, and be no shorter.
pub fn hear(
    session: &mut Session,
    line: &str,
) -> Result<Result<Option<Request>, Failure>, AllocError>
    ensures { IfOk result (λ request. LineRead line.now session.old request session.new) }
{
    if is_skipped(line) {
        return Ok(Ok(None));
    }
    if session.awaits_entry() {
        let outcome = session.entry(line)?;
        return Ok(outcome.map(|reply| reply.map(Request::OfScript)));
    }
    Ok(match parse_order(line) {
        Ok(Order::OfScript(call)) => session.call(call).map(|reply| reply.map(Request::OfScript)),
        Ok(Order::Load) => Ok(Some(Request::Load)),
        Ok(Order::OfMachine(call)) => Ok(Some(Request::OfMachine(call))),
        Ok(Order::Trace(most)) => Ok(Some(Request::Trace(most))),
        Err(problem) => Err(problem.into()),
    })
}
