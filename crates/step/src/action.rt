// What a step will do, decided before anything is altered.
ghost use Rattle.std.specs.Prelude.{◌≡◌};
ghost use Rattle.step.specs.Action.{Affordable, acted, action_of, cost_of, external_due, instruction_in, is_illegal, kind_in, raises_clock, timer_due};

use crate::answer::Kind;
use board::reading::Reading;
use chip::state::{Chip, Mode};
use execute::entry::{enter_external, enter_timer};
use execute::fetch::{Fetched, execute, fetch};
use opcodes::{Instruction, row};
use part::layout::executable;

#[derive(Clone, Copy)]
pub enum Action {
    External,
    Timer,
    Idle,
    IllegalAddress,
    Instruction(Instruction),
}

// Whether the external interrupt is due: I clear, IRQE and IRQF.
fn external_due(chip: &Chip) -> bool
    ensures { result ≡ external_due chip.now }
{
    !chip.registers.flags.i && chip.interrupt.enable && chip.requested()
}

// Whether the timer's interrupt is due.
fn timer_due(chip: &Chip) -> bool
    ensures { result ≡ timer_due chip.now }
{
    !chip.registers.flags.i && chip.timer.requests()
}

// The instruction at the program counter, or `None` for a code without one.
fn instruction(chip: &Chip, reading: &Reading) -> Option<Action>
    ensures is { result ≡ instruction_in reading.now chip.now }
    ensures cost { Affordable result }
{
    let Fetched {
        code,
        first,
        second,
    } = fetch(chip, reading);
    let row = row(code)?;
    Some(Action::Instruction(Instruction { row, first, second }))
}

// What the next step does, or `None` where it meets a code without an instruction.
pub fn next_action(chip: &Chip, reading: &Reading) -> Option<Action>
    ensures is { result ≡ action_of reading.now chip.now }
    ensures cost { Affordable result }
{
    if external_due(chip) {
        return Some(Action::External);
    }
    if timer_due(chip) {
        return Some(Action::Timer);
    }
    match chip.mode {
        Mode::Waiting | Mode::Stopped => Some(Action::Idle),
        Mode::Running if executable(chip.registers.pc) => instruction(chip, reading),
        Mode::Running => Some(Action::IllegalAddress),
    }
}

impl Action {
    pub fn kind(&self) -> Kind
        ensures { result ≡ kind_in self.now }
    {
        match self {
            Action::External => Kind::External,
            Action::Timer => Kind::Timer,
            Action::Idle => Kind::Idle,
            Action::IllegalAddress => Kind::IllegalAddress,
            Action::Instruction(_) => Kind::Instruction,
        }
    }

    // The cycles it takes.
    pub fn cost(&self) -> u8
        ensures { result ≡ cost_of self.now }
    {
        match self {
            Action::External | Action::Timer => 10,
            Action::Idle => 1,
            Action::IllegalAddress => 2,
            Action::Instruction(instruction) => instruction.row.cycles,
        }
    }

    // Whether t rises in its cycles: it stands while a stopped chip idles.
    pub fn raises_clock(&self, mode: Mode) -> bool
        ensures { result ≡ raises_clock self.now mode }
    {
        !matches!((self, mode), (Action::Idle, Mode::Stopped))
    }

    pub fn is_illegal(&self) -> bool
        ensures { result ≡ is_illegal self.now }
    {
        matches!(self, Action::IllegalAddress)
    }

    // What it does to the chip before its cycles.
    pub fn act(&self, chip: &mut Chip, reading: &Reading)
        ensures { chip.new ≡ acted self.now reading.now chip.old }
    {
        match self {
            Action::Instruction(instruction) => execute(chip, reading, *instruction),
            Action::External => enter_external(chip),
            Action::Timer => enter_timer(chip),
            Action::Idle | Action::IllegalAddress => {}
        }
    }
}
