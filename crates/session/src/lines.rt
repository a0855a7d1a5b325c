// The lines of a script on standard input, and their answers on standard output.
ghost use Rattle.std.specs.Prelude.{◌≡◌, IsUtf8};

use crate::failure::Failure;
use std::alloc::AllocError;
use std::fmt::Display;
use std::io::{BufRead, BufReader};
use text::line::content;

// The line as text. One that is not UTF-8 is no call and no entry, and stands here as `?`; or it is a remark.
fn text_of(line: &[u8]) -> &str
    ensures { IsUtf8 line.now → result.now ≡ line.now }
{
    match (std::str::from_utf8(line), line) {
        (Ok(text), _) => text,
        (Err(_), [b'#', ..]) => "#",
        (Err(_), _) => "?",
    }
}

// Hears each line up to the end of the input, and answers what it calls for. Nothing says that an input ends, so the lines are counted. Hearing and answering are two closures: a program's error is large, and a line that calls for nothing is not to pay for one.
pub fn each_line<
    R,
    H: FnMut(&str) -> Result<Result<Option<R>, Failure>, AllocError>,
    A: FnMut(&str, R) -> anyhow::Result<()>,
>(rt: &HostRuntime, mut hear: H, mut answer: A) -> anyhow::Result<()>
    requires { (H.IsAlwaysCallable hear) × (A.IsAlwaysCallable answer) }
{
    let mut input = BufReader::new(rt.alloc(), rt.stdin())?;
    let mut bytes = Vec::new(rt.alloc());
    for _ in 0..u64::MAX {
        bytes.clear();
        if input.read_until(b'\n', &mut bytes)? == 0 {
            break;
        }
        let line = text_of(content(bytes.as_slice()));
        match hear(line)? {
            Ok(Some(request)) => answer(line, request)?,
            Ok(None) => {}
            Err(failure) => rt.println(failure)?,
        }
    }
    Ok(())
}

// Prints an answer, or why there is none.
pub fn print_answer<A: Display + Drop, F: Display + Drop>(
    rt: &HostRuntime,
    answer: Result<A, F>,
) -> anyhow::Result<()> {
    match answer {
        Ok(done) => rt.println(done)?,
        Err(failure) => rt.println(failure)?,
    }
    Ok(())
}
