// What a call is answered that can be made.
ghost use Rattle.std.specs.Prelude.{Some, Ok};
ghost use Rattle.session.specs.Answers.{answer_text};

use board::reading::Reading;
use std::fmt;

#[derive(Clone, Copy)]
pub enum Answer {
    Done,
    // so many lines were listed
    Listed(usize),
    Shown(Reading),
    Quiet(u16),
}

impl fmt::Display for Answer {
    ghost output = { λ answer. Some (answer_text (Ok answer)) };

    fn fmt<W: fmt::Write>(&self, f: &mut fmt::Formatter<W>) -> fmt::Result {
        match *self {
            Answer::Done => f.write_str("ok"),
            Answer::Listed(lines) => write!(f, "ok {lines}"),
            Answer::Shown(reading) => write!(f, "show {reading}"),
            Answer::Quiet(cycles) => write!(f, "quiet {cycles}"),
        }
    }
}
