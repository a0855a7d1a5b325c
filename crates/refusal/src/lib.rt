// The numbers by which a call says why it refused.
#![tactic(auto)]

ghost use Rattle.std.specs.Prelude.{◌≡◌, Some};
ghost use Rattle.std.specs.Fmt.{decimal};
ghost use Rattle.refusal.specs.Numbers.{number_of};

use std::fmt;
use std::fmt::Display;

#[derive(Clone, Copy, PartialEq, Eq, Debug)]
pub enum Refusal {
    ImageLength = 1,
    ImageByte = 2,
    Target = 3,
    FileEnds = 4,
    FrontByte = 5,
    RecordKind = 6,
    RecordLength = 7,
    Field = 8,
    Level = 9,
    Buffer = 10,
    Board = 11,
    NoImage = 21,
    TotalLimit = 22,
    NoInstruction = 23,
}

// The published number.
impl From<Refusal> for u8 {
    ghost from_gives = { λ refusal number. number ≡ number_of refusal };

    fn from(refusal: Refusal) -> u8 {
        refusal as u8
    }
}

// The published number, in decimal.
impl fmt::Display for Refusal {
    ghost output = { λ refusal. Some (decimal (number_of refusal)) };

    fn fmt<W: fmt::Write>(&self, f: &mut fmt::Formatter<W>) -> fmt::Result {
        u8::from(*self).fmt(f)
    }
}
