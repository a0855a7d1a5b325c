// Single steps in a row, and the hash of what they answered.
ghost use Rattle.std.specs.Prelude.{◌≡◌};
ghost use Rattle.machine.specs.State.{state};
ghost use Rattle.operate.specs.Steps.{hashed_step, steps_of};

use board::contract::Board;
use machine::machine::Machine;
use refusal::Refusal;
use step::answer::StepAnswer;
use text::fnv::{FNV_START, fnv_with};

// The steps made, the hash of their kinds, costs and resets, and the refusal that ended them, if one did.
#[derive(Clone, Copy)]
pub struct StepsAnswer {
    pub made: u32,
    pub hash: u32,
    pub refusal: Option<Refusal>,
}

fn hash_step(hash: u32, answer: &StepAnswer) -> u32
    ensures { result ≡ hashed_step hash answer.now }
{
    let kind = fnv_with(hash, u8::from(answer.kind));
    let cost = fnv_with(kind, answer.cost);
    fnv_with(cost, u8::from(answer.reset))
}

// Up to so many steps, ending at a refusal.
pub fn make_steps<B: Board>(machine: &mut Machine<B>, most: u32) -> StepsAnswer
    ensures { (result, state machine.new) ≡ steps_of B.Board most (state machine.old) }
{
    let mut hash = FNV_START;
    for made in 0..most {
        match machine.step() {
            Ok(answer) => hash = hash_step(hash, &answer),
            Err(refusal) => {
                return StepsAnswer {
                    made,
                    hash,
                    refusal: Some(refusal),
                };
            }
        }
    }
    StepsAnswer {
        made: most,
        hash,
        refusal: None,
    }
}
