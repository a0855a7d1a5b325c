// A board whose kind is chosen at run time.
ghost use Rattle.std.specs.Prelude.{◌≡◌, ℕ, ◌≤◌};
ghost use Rattle.board.specs.declared.any.AnyBoard.TheVariants.{Switches as of_switches, Schedule as of_schedule, Matrix as of_matrix};
ghost use Rattle.board.specs.Any.{any_quiet, any_shows, any_advanced, any_told};
ghost use Rattle.board.specs.LawsKept.{any_laws};

use crate::contract::Board;
use crate::matrix::Matrix;
use crate::reading::{Outputs, Reading};
use crate::schedule::Schedule;
use crate::switches::Switches;

// A board of any of the three kinds.
#[derive(Clone, Copy)]
pub enum AnyBoard<'a> {
    Switches(Switches),
    Schedule(Schedule<'a>),
    Matrix(Matrix),
}

impl<'a> From<Switches> for AnyBoard<'a> {
    ghost from_gives = { λ b r. r ≡ of_switches b };

    fn from(switches: Switches) -> AnyBoard<'a> {
        AnyBoard::Switches(switches)
    }
}

impl<'a> From<Schedule<'a>> for AnyBoard<'a> {
    ghost from_gives = { λ b r. r ≡ of_schedule b };

    fn from(schedule: Schedule<'a>) -> AnyBoard<'a> {
        AnyBoard::Schedule(schedule)
    }
}

impl<'a> From<Matrix> for AnyBoard<'a> {
    ghost from_gives = { λ b r. r ≡ of_matrix b };

    fn from(matrix: Matrix) -> AnyBoard<'a> {
        AnyBoard::Matrix(matrix)
    }
}

impl<'a> Board for AnyBoard<'a> {
    ghost shows = { any_shows };

    ghost advanced = { any_advanced };

    ghost told = { any_told };

    ghost laws = { any_laws };

    fn show(&self) -> Reading {
        match self {
            AnyBoard::Switches(board) => board.show(),
            AnyBoard::Schedule(board) => board.show(),
            AnyBoard::Matrix(board) => board.show(),
        }
    }

    fn advance(&mut self, n: u16) {
        match self {
            AnyBoard::Switches(board) => board.advance(n),
            AnyBoard::Schedule(board) => board.advance(n),
            AnyBoard::Matrix(board) => board.advance(n),
        }
    }

    // What its kind answers.
    fn quiet(&self) -> u16
        ensures still { (k : ℕ) → k ≤ result → any_shows self.now k ≡ any_shows self.now 0 }
        ensures answer { result ≡ any_quiet self.now }
    {
        match self {
            AnyBoard::Switches(board) => board.quiet(),
            AnyBoard::Schedule(board) => board.quiet(),
            AnyBoard::Matrix(board) => board.quiet(),
        }
    }

    fn tell(&mut self, outputs: Outputs) {
        match self {
            AnyBoard::Switches(board) => board.tell(outputs),
            AnyBoard::Schedule(board) => board.tell(outputs),
            AnyBoard::Matrix(board) => board.tell(outputs),
        }
    }
}
