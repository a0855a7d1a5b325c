// A keyboard matrix: sixteen keys between four rows, PB0 to PB3, and four columns, PA0 to PA3.
ghost use Rattle.std.specs.Prelude.{◌≡◌, ℕ, ◌<◌, ◌≤◌};
ghost use Rattle.board.specs.Matrix.{row, columns, matrix_of, matrix_shows, matrix_advanced, matrix_told};
ghost use Rattle.board.specs.LawsKept.{matrix_laws};

use crate::contract::Board;
use crate::reading::{Outputs, Reading};
use bits::bit;

// Bit 4r + c of keys is the pressed key of row r and column c.
#[derive(Clone, Copy)]
pub struct Matrix {
    keys: u16,
    outputs: Outputs,
}

// The columns that a pressed key of row r joins with that row at 1.
fn row_of(keys: u16, rows: u8, r: u8) -> u8
    requires { r < 4 }
    ensures { result ≡ row keys rows r }
{
    if bit(rows, r) {
        ((keys >> (4 * r)) % 16) as u8
    } else {
        0
    }
}

// The columns that a pressed key of any row joins with a row at 1. There are four rows, and a fold over them is no shorter.
fn columns_of(keys: u16, rows: u8) -> u8
    ensures { result ≡ columns keys rows }
{
    row_of(keys, rows, 0) | row_of(keys, rows, 1) | row_of(keys, rows, 2) | row_of(keys, rows, 3)
}

impl Matrix {
    // The matrix with these keys pressed, before it is told any output.
    pub fn new(keys: u16) -> Matrix
        ensures { result ≡ matrix_of keys }
    {
        Matrix {
            keys,
            outputs: Outputs::default(),
        }
    }
}

impl Board for Matrix {
    ghost shows = { matrix_shows };

    ghost advanced = { matrix_advanced };

    ghost told = { matrix_told };

    ghost laws = { matrix_laws };

    fn show(&self) -> Reading {
        let level = columns_of(self.keys, self.outputs.direction_b & self.outputs.driven_b);
        Reading {
            level_a: level,
            open_a: 255 ^ level,
            level_b: 0,
            open_b: 63,
            irq: 1,
        }
    }

    fn advance(&mut self, n: u16) {}

    // The most cycles there are.
    fn quiet(&self) -> u16
        ensures still { (k : ℕ) → k ≤ result → matrix_shows self.now k ≡ matrix_shows self.now 0 }
        ensures answer { result ≡ 65535 }
    {
        u16::MAX
    }

    fn tell(&mut self, outputs: Outputs) {
        self.outputs = outputs;
    }
}
