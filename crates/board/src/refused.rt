// Why a board was not made.
ghost use Rattle.std.specs.Prelude.{◌≡◌, Some};
ghost use Rattle.refusal.specs.declared.Refusal.TheVariants.{Board as BoardRefused};
ghost use Rattle.board.specs.Refused.{bad_entry_text};

use refusal::Refusal;
use std::fmt;

// A board cannot be made of what was given; the index names the first bad entry.
#[derive(Clone, Copy, PartialEq, Eq, Debug)]
pub struct BadEntry {
    pub index: usize,
}

impl From<BadEntry> for Refusal {
    ghost from_gives = { λ bad refusal. refusal ≡ BoardRefused };

    fn from(_: BadEntry) -> Refusal {
        Refusal::Board
    }
}

// The refusal's number and the index: 11 3.
impl fmt::Display for BadEntry {
    ghost output = { λ bad. Some (bad_entry_text bad) };

    fn fmt<W: fmt::Write>(&self, f: &mut fmt::Formatter<W>) -> fmt::Result {
        write!(f, "{} {}", Refusal::from(*self), self.index)
    }
}
