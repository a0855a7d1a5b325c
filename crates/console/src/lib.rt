// The bench program but for its entry point: reads a script and answers each call, line by line.
#![tactic(auto)]

pub mod request;

use request::{Request, hear};
use session::image::list;
use session::lines::{each_line, print_answer};
use session::session::Session;

// Answers what a line calls for.
fn answer(rt: &HostRuntime, line: &str, request: Request) -> anyhow::Result<()> {
    match request {
        Request::Said(answer) => Ok(rt.println(answer)?),
        Request::Listing => print_answer(rt, list(rt, line)?),
    }
}

// Answers the script on standard input, up to its end.
pub fn run(rt: &HostRuntime) -> anyhow::Result<()> {
    let mut session = Session::new(rt.alloc());
    each_line(
        rt,
        |line| hear(&mut session, line),
        |line, request| answer(rt, line, request),
    )?;
    // a session's end has a failure to tell, or nothing
    if let Err(failure) = session.end() {
        rt.println(failure)?;
    }
    Ok(())
}
