// The boards that a script describes.
ghost use Rattle.std.specs.Prelude.{◌≡◌};
ghost use Rattle.session.specs.Boards.{switches_made, matrix_made, ScheduleMade};

use board::any::AnyBoard;
use board::matrix::Matrix;
use board::reading::Reading;
use board::refused::BadEntry;
use board::schedule::{Entry, Schedule};
use board::switches::Switches;

pub type Made = Result<AnyBoard<'static>, BadEntry>;

pub fn switches(reading: Reading) -> Made
    ensures { result ≡ switches_made reading }
{
    Ok(AnyBoard::Switches(Switches::new(reading)?))
}

pub fn matrix(keys: u16) -> Made
    ensures { result ≡ matrix_made keys }
{
    Ok(AnyBoard::Matrix(Matrix::new(keys)))
}

// The schedule of these entries, which are kept until the program ends, since the board refers to them.
pub fn schedule(entries: Vec<Entry>) -> Made
    ensures { ScheduleMade entries.items result }
{
    Schedule::new(entries.leak()).map(AnyBoard::Schedule)
}
