// What a step answers.
ghost use Rattle.std.specs.Prelude.{◌≡◌, Some};
ghost use Rattle.std.specs.Fmt.{padded};
ghost use Rattle.step.specs.Answer.{cause_number, cause_word, kind_number, kind_word};

use std::fmt;

// What a step was: the entry of an interrupt, a cycle of waiting, an illegal address, or an instruction.
#[derive(Clone, Copy, PartialEq, Eq, Debug)]
pub enum Kind {
    External = 1,
    Timer = 2,
    Idle = 3,
    IllegalAddress = 4,
    Instruction = 5,
}

// The reset that a step ended with. That there was none is an answer with a published number like the others, so it is a case here and no `Option`.
#[derive(Clone, Copy, PartialEq, Eq, Debug)]
pub enum ResetCause {
    None = 0,
    IllegalAddress = 1,
    Watchdog = 2,
}

// The cost is in cycles.
#[derive(Clone, Copy, PartialEq, Eq, Debug)]
pub struct StepAnswer {
    pub kind: Kind,
    pub cost: u8,
    pub reset: ResetCause,
}

// Its published number.
impl From<Kind> for u8 {
    ghost from_gives = { λ kind number. number ≡ kind_number kind };

    fn from(kind: Kind) -> u8 {
        kind as u8
    }
}

// Its published number.
impl From<ResetCause> for u8 {
    ghost from_gives = { λ cause number. number ≡ cause_number cause };

    fn from(cause: ResetCause) -> u8 {
        cause as u8
    }
}

impl fmt::Display for Kind {
    ghost output = { λ kind. Some (kind_word kind) };

    ghost styled_output = { λ kind spec. Some (padded spec (kind_word kind)) };

    fn fmt<W: fmt::Write>(&self, f: &mut fmt::Formatter<W>) -> fmt::Result {
        f.pad(match self {
            Kind::External => "external",
            Kind::Timer => "timer",
            Kind::Idle => "idle",
            Kind::IllegalAddress => "illegal",
            Kind::Instruction => "instruction",
        })
    }
}

impl fmt::Display for ResetCause {
    ghost output = { λ cause. Some (cause_word cause) };

    ghost styled_output = { λ cause spec. Some (padded spec (cause_word cause)) };

    fn fmt<W: fmt::Write>(&self, f: &mut fmt::Formatter<W>) -> fmt::Result {
        f.pad(match self {
            ResetCause::None => "-",
            ResetCause::IllegalAddress => "illegal",
            ResetCause::Watchdog => "watchdog",
        })
    }
}
