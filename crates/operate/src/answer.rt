// What the calls of a machine answer, and why one is refused, as text.
ghost use Rattle.std.specs.Prelude.{◌≡◌, Some, Ok, Err};
ghost use Rattle.operate.specs.Answer.{answer_text, steps_text};
ghost use Rattle.operate.specs.declared.answer.Refused.TheVariants.{Image as ForImage, Call as ForCall};

use crate::snapshot::Snapshot;
use crate::steps::StepsAnswer;
use board::reading::Reading;
use machine::answer::RunAnswer;
use part::image::ImageRefused;
use refusal::Refusal;
use std::fmt;
use std::fmt::Display;
use step::answer::StepAnswer;

#[derive(Clone, Copy)]
pub enum MachineAnswer {
    Loaded,
    Stepped(StepAnswer),
    Steps(StepsAnswer),
    Ran(RunAnswer),
    State(Snapshot),
    // the state of a machine without an image: what its board shows
    Empty(Reading),
    Shown(Reading),
}

// Why a call is refused: the bytes are no image, or the machine refuses the call.
#[derive(Clone, Copy)]
pub enum Refused {
    Image(ImageRefused),
    Call(Refusal),
}

impl From<ImageRefused> for Refused {
    ghost from_gives = { λ image refused. refused ≡ ForImage image };

    fn from(image: ImageRefused) -> Refused {
        Refused::Image(image)
    }
}

impl From<Refusal> for Refused {
    ghost from_gives = { λ refusal refused. refused ≡ ForCall refusal };

    fn from(refusal: Refusal) -> Refused {
        Refused::Call(refusal)
    }
}

impl fmt::Display for Refused {
    ghost output = { λ x. Some (answer_text (Err x)) };

    fn fmt<W: fmt::Write>(&self, f: &mut fmt::Formatter<W>) -> fmt::Result {
        match *self {
            Refused::Image(why) => write!(f, "refused {why}"),
            Refused::Call(why) => write!(f, "refused {why}"),
        }
    }
}

impl fmt::Display for StepsAnswer {
    ghost output = { λ x. Some (steps_text x) };

    #[tactic(auto, using(text::proofs::HexText::quad_output))]
    fn fmt<W: fmt::Write>(&self, f: &mut fmt::Formatter<W>) -> fmt::Result {
        let StepsAnswer {
            made,
            hash,
            refusal,
        } = *self;
        match refusal {
            Some(refusal) => write!(f, "steps {made} {hash:08x} refused {refusal}"),
            None => write!(f, "steps {made} {hash:08x}"),
        }
    }
}

impl fmt::Display for MachineAnswer {
    ghost output = { λ x. Some (answer_text (Ok x)) };

    fn fmt<W: fmt::Write>(&self, f: &mut fmt::Formatter<W>) -> fmt::Result {
        match *self {
            MachineAnswer::Loaded => f.write_str("ok"),
            MachineAnswer::Stepped(StepAnswer { kind, cost, reset }) => {
                write!(f, "step {} {cost} {}", u8::from(kind), u8::from(reset))
            }
            MachineAnswer::Steps(answer) => answer.fmt(f),
            MachineAnswer::Ran(RunAnswer { steps, end }) => write!(
                f,
                "run {steps} {}",
                u8::from(end)
            ),
            MachineAnswer::State(snapshot) => snapshot.fmt(f),
            MachineAnswer::Empty(reading) => write!(f, "state none SHOW {reading}"),
            MachineAnswer::Shown(reading) => write!(f, "show {reading}"),
        }
    }
}
