// What the program answers to a call, and why a call cannot be made.
ghost use Rattle.std.specs.Prelude.{◌≡◌, Some, Ok, Err};
ghost use Rattle.desk.specs.Answers.{answer_text};
ghost use Rattle.desk.specs.declared.answer.Failure.TheVariants as failure;

use operate::answer::{MachineAnswer, Refused};
use std::fmt;
use std::fmt::Display;

#[derive(Clone, Copy)]
pub enum Answer {
    OfScript(session::answer::Answer),
    OfMachine(MachineAnswer),
    // so many steps were told line by line
    Traced(u32),
}

#[derive(Clone, Copy)]
pub enum Failure {
    OfScript(session::failure::Failure),
    NoMachine,
    OfMachine(Refused),
}

impl From<session::failure::Failure> for Failure {
    ghost from_gives = { λ e r. r ≡ failure.OfScript e };

    fn from(failure: session::failure::Failure) -> Failure {
        Failure::OfScript(failure)
    }
}

impl From<Refused> for Failure {
    ghost from_gives = { λ e r. r ≡ failure.OfMachine e };

    fn from(refused: Refused) -> Failure {
        Failure::OfMachine(refused)
    }
}

impl fmt::Display for Answer {
    ghost output = { λ answer. Some (answer_text (Ok answer)) };

    fn fmt<W: fmt::Write>(&self, f: &mut fmt::Formatter<W>) -> fmt::Result {
        match *self {
            Answer::OfScript(answer) => answer.fmt(f),
            Answer::OfMachine(answer) => answer.fmt(f),
            Answer::Traced(steps) => write!(f, "ok {steps}"),
        }
    }
}

impl fmt::Display for Failure {
    ghost output = { λ failure. Some (answer_text (Err failure)) };

    fn fmt<W: fmt::Write>(&self, f: &mut fmt::Formatter<W>) -> fmt::Result {
        match *self {
            Failure::OfScript(failure) => failure.fmt(f),
            Failure::NoMachine => f.write_str("error no machine"),
            Failure::OfMachine(refused) => refused.fmt(f),
        }
    }
}
