// The bench program with machines but for its entry point: reads a script and answers each call, line by line.
#![tactic(auto)]

pub mod answer;
mod operator;
pub mod request;
mod trace;

use answer::{Answer, Failure};
use board::any::AnyBoard;
use operator::Operator;
use request::{Request, hear};
use session::image::{bytes_in, list};
use session::lines::{each_line, print_answer};
use session::reply::Reply;
use session::session::Session;

// Loads the image that a line gives.
fn load(
    rt: &HostRuntime,
    line: &str,
    operator: &mut Operator<AnyBoard<'static>>,
) -> anyhow::Result<Result<Answer, Failure>> {
    Ok(match bytes_in(rt, line)? {
        Ok(image) => operator.load_image(image.as_slice()),
        Err(failure) => Err(failure.into()),
    })
}

// Tells up to so many steps, one line each, and answers how many they were or why no more were made.
fn tell_steps(
    rt: &HostRuntime,
    operator: &mut Operator<AnyBoard<'static>>,
    most: u32,
) -> anyhow::Result<Result<Answer, Failure>> {
    if !operator.has_begun() {
        return Ok(Err(Failure::NoMachine));
    }
    for _ in 0..most {
        match operator.trace_step() {
            Ok(told) => rt.println(told.text(rt.alloc())?)?,
            Err(failure) => return Ok(Err(failure)),
        }
    }
    Ok(Ok(Answer::Traced(most)))
}

// Does what a line calls for.
fn respond(
    rt: &HostRuntime,
    line: &str,
    request: Request,
    operator: &mut Operator<AnyBoard<'static>>,
) -> anyhow::Result<Result<Answer, Failure>> {
    Ok(match request {
        Request::OfScript(Reply::Said(answer)) => Ok(Answer::OfScript(answer)),
        Request::OfScript(Reply::Listing) => list(rt, line)?
            .map(Answer::OfScript)
            .map_err(Failure::OfScript),
        Request::OfScript(Reply::Begin(board)) => Ok(operator.begin(board)),
        Request::Load => load(rt, line, operator)?,
        Request::OfMachine(call) => operator.call(call),
        Request::Trace(most) => tell_steps(rt, operator, most)?,
    })
}

// Answers the script on standard input, up to its end.
pub fn run(rt: &HostRuntime) -> anyhow::Result<()> {
    let mut session = Session::new(rt.alloc());
    let mut operator = Operator::new();
    each_line(
        rt,
        |line| hear(&mut session, line),
        |line, request| print_answer(rt, respond(rt, line, request, &mut operator)?),
    )?;
    // a session's end has a failure to tell, or nothing
    if let Err(failure) = session.end() {
        rt.println(failure)?;
    }
    Ok(())
}
