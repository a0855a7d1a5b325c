// What a run answers, and the pins.
ghost use Rattle.std.specs.Prelude.{◌≡◌};
ghost use Rattle.machine.specs.Answer.{end_number};

// How a run ended: at its target, or at a code without an instruction.
#[derive(Clone, Copy, PartialEq, Eq, Debug)]
pub enum RunEnd {
    Reached = 0,
    Stuck = 1,
}

#[derive(Clone, Copy, PartialEq, Eq, Debug)]
pub struct RunAnswer {
    pub steps: u64,
    pub end: RunEnd,
}

// The levels of ports A and B and of IRQ.
#[derive(Clone, Copy, PartialEq, Eq, Debug)]
pub struct Pins {
    pub a: u8,
    pub b: u8,
    pub irq: u8,
}

// Its published number.
impl From<RunEnd> for u8 {
    ghost from_gives = { λ end number. number ≡ end_number end };

    fn from(end: RunEnd) -> u8 {
        end as u8
    }
}
