// What each line of a script asks for.
ghost use Rattle.std.specs.Prelude.{◌≡◌};
ghost use Rattle.text.specs.Words.{words};
ghost use Rattle.script.specs.Calls.{switches_line, schedule_line, matrix_line, board_line, advance_of, tell_of, call_of, entry_of};

use crate::argument::{
    bare, end_at, keys_at, last_number_at, number_at, outputs_at, reading_at, with_bytes,
};
use crate::call::{BoardCall, Call, Kind, Problem, Purpose};
use board::schedule::Entry;
use text::word::word_at;

fn switches(line: &str) -> Result<Kind, Problem>
    ensures { result ≡ switches_line (words line.now) }
{
    let reading = reading_at(line, 2)?;
    end_at(line, 7)?;
    Ok(Kind::Switches(reading))
}

fn schedule(line: &str) -> Result<Kind, Problem>
    ensures { result ≡ schedule_line (words line.now) }
{
    let count = last_number_at(line, 2, u64::from(u32::MAX))?;
    Ok(Kind::Schedule(count as u32))
}

fn matrix(line: &str) -> Result<Kind, Problem>
    ensures { result ≡ matrix_line (words line.now) }
{
    let keys = keys_at(line, 2)?;
    end_at(line, 3)?;
    Ok(Kind::Matrix(keys))
}

// The board that a line describes.
fn board_of(line: &str) -> Result<Kind, Problem>
    ensures { result ≡ board_line (words line.now) }
{
    match word_at(line, 1).ok_or(Problem::MissingArgument)? {
        "switches" => switches(line),
        "schedule" => schedule(line),
        "matrix" => matrix(line),
        _ => Err(Problem::UnknownBoard),
    }
}

fn advance(line: &str) -> Result<Call, Problem>
    ensures { result ≡ advance_of (words line.now) }
{
    let cycles = last_number_at(line, 1, u64::from(u16::MAX))?;
    Ok(Call::OfBoard(BoardCall::Advance(cycles as u16)))
}

fn tell(line: &str) -> Result<Call, Problem>
    ensures { result ≡ tell_of (words line.now) }
{
    let outputs = outputs_at(line, 1)?;
    end_at(line, 5)?;
    Ok(Call::OfBoard(BoardCall::Tell(outputs)))
}

// The call that a line asks for, or why it asks for none.
pub fn parse_call(line: &str) -> Result<Call, Problem>
    ensures { result ≡ call_of line.now }
{
    match word_at(line, 0).ok_or(Problem::UnknownCall)? {
        "board" => Ok(Call::Make(Purpose::NewMachine, board_of(line)?)),
        "change" => Ok(Call::Make(Purpose::Replacement, board_of(line)?)),
        "bench" => Ok(Call::Make(Purpose::Alone, board_of(line)?)),
        "bshow" => bare(line, Call::OfBoard(BoardCall::Show)),
        "badvance" => advance(line),
        "btell" => tell(line),
        "bquiet" => bare(line, Call::OfBoard(BoardCall::Quiet)),
        "list" => with_bytes(line, Call::Listing),
        "load" | "step" | "steps" | "run" | "save" | "open" | "reset" | "state" | "show" => Ok(
            Call::NotOffered,
        ),
        _ => Err(Problem::UnknownCall),
    }
}

// One entry of a schedule.
pub fn parse_entry(line: &str) -> Result<Entry, Problem>
    ensures { result ≡ entry_of (words line.now) }
{
    let cycle = number_at(line, 0, u64::MAX)?;
    let reading = reading_at(line, 1)?;
    end_at(line, 6)?;
    Ok(Entry { cycle, reading })
}
