// One step of a chip on its board.
ghost use Rattle.std.specs.Prelude.{◌≡◌, ◌≤◌, Some};
ghost use Rattle.step.specs.Action.{action_of, cost_of};
ghost use Rattle.step.specs.Sound.{Sound};
ghost use Rattle.step.specs.Step.{answered, cause_of, closed, informed, shown, stepped, worked};

use crate::action::{Action, next_action};
use crate::answer::{ResetCause, StepAnswer};
use board::contract::Board;
use board::reading::{Outputs, Reading};
use cycles::Fitted;

// Tells the board the chip's outputs, where they are not what they were.
pub fn tell_altered<B: Board>(board: &mut B, old: &Outputs, new: &Outputs)
    ensures { board.new ≡ informed B.Board old.now new.now board.old }
{
    if old != new {
        board.tell(*new);
    }
}

// The reset that is due where the cycles of an action end at this stage.
fn reset_due(action: &Action, stage: u8) -> ResetCause
    ensures { result ≡ cause_of action.now stage }
{
    if stage >= 8 {
        ResetCause::Watchdog
    } else if action.is_illegal() {
        ResetCause::IllegalAddress
    } else {
        ResetCause::None
    }
}

// Makes the reset that is due, and tells outputs that it alters.
fn close<B: Board>(fitted: &mut Fitted<B>, reset: ResetCause)
    ensures { (fitted.new.chip, fitted.new.board) ≡ closed B.Board reset fitted.old.chip fitted.old.board }
{
    match reset {
        ResetCause::None => {}
        ResetCause::IllegalAddress | ResetCause::Watchdog => {
            let before = fitted.chip.outputs();
            fitted.chip.reset();
            tell_altered(&mut fitted.board, &before, &fitted.chip.outputs());
        }
    }
}

// A step with this action: it acts, altered outputs are told, its cycles pass, and a reset that is due comes last.
fn work<B: Board>(fitted: &mut Fitted<B>, reading: &Reading, action: &Action) -> StepAnswer
    requires { (Sound fitted.old.chip) × ((action_of reading.now fitted.old.chip ≡ Some action.now) × ((1 ≤ cost_of action.now) × (cost_of action.now ≤ 11))) }
    ensures is { (result, (fitted.new.chip, fitted.new.board)) ≡ shown (worked B.Board action.now reading.now fitted.old.chip fitted.old.board) }
    ensures sound { Sound fitted.new.chip }
{
    let before = fitted.chip.outputs();
    let rises = action.raises_clock(fitted.chip.mode);
    action.act(&mut fitted.chip, reading);
    tell_altered(&mut fitted.board, &before, &fitted.chip.outputs());
    let cost = action.cost();
    fitted.pass_cycles(rises, cost);
    let reset = reset_due(action, fitted.chip.timer.stage);
    close(fitted, reset);
    StepAnswer {
        kind: action.kind(),
        cost,
        reset,
    }
}

// One step, or `None`, with nothing altered, at a code without an instruction. What every chip keeps is asked and promised here, and a machine has it by its type; in a ghost field of `Fitted` it would bind each write to the chip in the midst of a step.
pub fn step_chip<B: Board>(fitted: &mut Fitted<B>) -> Option<StepAnswer>
    requires { Sound fitted.old.chip }
    ensures is { (result, (fitted.new.chip, fitted.new.board)) ≡ answered (stepped B.Board fitted.old.chip fitted.old.board) fitted.old.chip fitted.old.board }
    ensures sound { Sound fitted.new.chip }
{
    let reading = fitted.board.show();
    let action = next_action(&fitted.chip, &reading)?;
    Some(work(fitted, &reading, &action))
}
