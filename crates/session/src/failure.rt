// Why a call cannot be made.
ghost use Rattle.std.specs.Prelude.{◌≡◌, Some, Err};
ghost use Rattle.session.specs.Answers.{answer_text};
ghost use Rattle.session.specs.declared.failure.Failure.TheVariants as failure;

use board::refused::BadEntry;
use part::image::ImageRefused;
use script::call::Problem;
use std::fmt;

#[derive(Clone, Copy)]
pub enum Failure {
    NotOffered,
    NoBoard,
    BadEntry,
    MissingEntries,
    BadBytes,
    UnreadFile,
    // the line is no call
    Line(Problem),
    // a board was not made
    Board(BadEntry),
    // a string of bytes is no image
    Image(ImageRefused),
}

impl From<Problem> for Failure {
    ghost from_gives = { λ problem r. r ≡ failure.Line problem };

    fn from(problem: Problem) -> Failure {
        Failure::Line(problem)
    }
}

impl From<BadEntry> for Failure {
    ghost from_gives = { λ bad r. r ≡ failure.Board bad };

    fn from(bad: BadEntry) -> Failure {
        Failure::Board(bad)
    }
}

impl From<ImageRefused> for Failure {
    ghost from_gives = { λ refused r. r ≡ failure.Image refused };

    fn from(refused: ImageRefused) -> Failure {
        Failure::Image(refused)
    }
}

// A board or an image is refused with its number; the other reasons are words.
impl fmt::Display for Failure {
    ghost output = { λ failure. Some (answer_text (Err failure)) };

    fn fmt<W: fmt::Write>(&self, f: &mut fmt::Formatter<W>) -> fmt::Result {
        match *self {
            Failure::NotOffered => f.write_str("error not offered"),
            Failure::NoBoard => f.write_str("error no board"),
            Failure::BadEntry => f.write_str("error bad entry"),
            Failure::MissingEntries => f.write_str("error missing entries"),
            Failure::BadBytes => f.write_str("error bad bytes"),
            Failure::UnreadFile => f.write_str("error cannot read file"),
            Failure::Line(problem) => write!(f, "error {problem}"),
            Failure::Board(bad) => write!(f, "refused {bad}"),
            Failure::Image(refused) => write!(f, "refused {refused}"),
        }
    }
}
