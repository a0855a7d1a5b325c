// The calls of a machine.
ghost use Rattle.std.specs.Prelude.{◌≡◌, length};
ghost use Rattle.machine.specs.Calls.{begun, imaged, load_of, may_step, step_of};
ghost use Rattle.machine.specs.Run.{run_of};
ghost use Rattle.machine.specs.State.{state};

use super::Machine;
use crate::answer::{RunAnswer, RunEnd};
use board::contract::Board;
use chip::state::Chip;
use cycles::Fitted;
use part::image::{ImageRefused, check_image};
use refusal::Refusal;
use step::answer::StepAnswer;
use step::step::{step_chip, tell_altered};

// A step may begin at this total, and a run may aim at it.
pub const TOTAL_LIMIT: u64 = (1 << 40) - 16;

// Zeroes the chip, takes the image and resets.
fn take_image(chip: &mut Chip, image: &[u8])
    requires { length image.now ≡ 2048 }
    ensures { chip.new ≡ imaged image.now }
{
    *chip = Chip::new();
    chip.rom.take(image);
    chip.reset();
}

impl<B: Board> Machine<B> {
    // A machine on this board, without an image. The board is told its outputs.
    pub fn new(mut board: B) -> Machine<B>
        ensures { state result ≡ begun B.Board board }
    {
        let chip = Chip::new();
        board.tell(chip.outputs());
        Machine {
            fitted: Fitted { chip, board },
            total: 0,
            loaded: false,
        }
    }

    // Loads an image: the machine starts anew with it, while the board's time goes on.
    pub fn load(&mut self, image: &[u8]) -> Result<(), ImageRefused>
        ensures { (result, state self.new) ≡ load_of B.Board image.now (state self.old) }
    {
        check_image(image)?;
        let Fitted { chip, board } = &mut self.fitted;
        let before = chip.outputs();
        take_image(chip, image);
        tell_altered(board, &before, &chip.outputs());
        chip.interrupt.active = chip.active(&board.show());
        self.total = 0;
        self.loaded = true;
        Ok(())
    }

    // Whether a step may begin: with an image, and not above the limit.
    fn may_step(&self) -> Result<(), Refusal>
        ensures { result ≡ may_step (state self.now) }
    {
        if !self.loaded {
            return Err(Refusal::NoImage);
        }
        if self.total > TOTAL_LIMIT {
            return Err(Refusal::TotalLimit);
        }
        Ok(())
    }

    // One step. A refusal alters nothing.
    pub fn step(&mut self) -> Result<StepAnswer, Refusal>
        ensures { (result, state self.new) ≡ step_of B.Board (state self.old) }
    {
        self.may_step()?;
        let answer = step_chip(&mut self.fitted).ok_or(Refusal::NoInstruction)?;
        self.total += u64::from(answer.cost);
        Ok(answer)
    }

    // Steps while the total is below the target.
    pub fn run(&mut self, target: u64) -> Result<RunAnswer, Refusal>
        ensures { (result, state self.new) ≡ run_of B.Board target (state self.old) }
    {
        if target > TOTAL_LIMIT {
            return Err(Refusal::Target);
        }
        if !self.loaded {
            return Err(Refusal::NoImage);
        }
        let mut steps = 0;
        while self.total < target {
            match self.step() {
                Ok(_) => steps += 1,
                Err(_) => {
                    return Ok(RunAnswer {
                        steps,
                        end: RunEnd::Stuck,
                    });
                }
            }
        }
        Ok(RunAnswer {
            steps,
            end: RunEnd::Reached,
        })
    }
}
