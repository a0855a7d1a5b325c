// What a line of a script asks for, and why a line is no call.
ghost use Rattle.std.specs.Prelude.{◌≡◌, Some};
ghost use Rattle.script.specs.Reasons.{reason_of};

use board::reading::{Outputs, Reading};
use std::fmt;

// What a board is made for: a new machine, the living machine in place of its board, or to stand alone.
#[derive(Clone, Copy)]
pub enum Purpose {
    NewMachine,
    Replacement,
    Alone,
}

// A board to make. The entries of a schedule, as many as said here, follow on lines of their own.
#[derive(Clone, Copy)]
pub enum Kind {
    Switches(Reading),
    Schedule(u32),
    Matrix(u16),
}

// A call of the board that stands alone.
#[derive(Clone, Copy)]
pub enum BoardCall {
    Show,
    Advance(u16),
    Tell(Outputs),
    Quiet,
}

#[derive(Clone, Copy)]
pub enum Call {
    Make(Purpose, Kind),
    OfBoard(BoardCall),
    // the listing of an image: the line's second word is its byte string
    Listing,
    // a call of the language that this program does not offer
    NotOffered,
}

// Why a line is no call.
#[derive(Clone, Copy, PartialEq, Eq, Debug)]
pub enum Problem {
    UnknownCall,
    UnknownBoard,
    MissingArgument,
    ExtraArgument,
    BadNumber,
    BadKeys,
}

impl Problem {
    // The reason in a few words.
    pub fn reason(self) -> &'static str
        ensures { result.now ≡ reason_of self }
    {
        match self {
            Problem::UnknownCall => "unknown call",
            Problem::UnknownBoard => "unknown board",
            Problem::MissingArgument => "missing argument",
            Problem::ExtraArgument => "extra argument",
            Problem::BadNumber => "bad number",
            Problem::BadKeys => "bad keys",
        }
    }
}

impl fmt::Display for Problem {
    ghost output = { λ problem. Some (reason_of problem) };

    fn fmt<W: fmt::Write>(&self, f: &mut fmt::Formatter<W>) -> fmt::Result {
        f.write_str(self.reason())
    }
}
