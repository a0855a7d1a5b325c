// The calls that a script makes of a machine.
ghost use Rattle.std.specs.Prelude.{◌≡◌};
ghost use Rattle.machine.specs.State.{state};
ghost use Rattle.operate.specs.Call.{called, load_answered, state_of};

use crate::answer::{MachineAnswer, Refused};
use crate::snapshot::take_snapshot;
use crate::steps::make_steps;
use board::contract::Board;
use machine::machine::Machine;
use orders::call::MachineCall;

// Loads these bytes as an image.
pub fn load<B: Board>(machine: &mut Machine<B>, image: &[u8]) -> Result<MachineAnswer, Refused>
    ensures { (result, state machine.new) ≡ load_answered B.Board image.now (state machine.old) }
{
    machine.load(image)?;
    Ok(MachineAnswer::Loaded)
}

// All that the machine holds; without an image only what its board shows.
fn state_of<B: Board>(machine: &Machine<B>) -> MachineAnswer
    ensures { result ≡ state_of B.Board (state machine.now) }
{
    if machine.has_image() {
        MachineAnswer::State(take_snapshot(machine))
    } else {
        MachineAnswer::Empty(machine.board().show())
    }
}

// Makes a call.
pub fn call_machine<B: Board>(
    machine: &mut Machine<B>,
    call: MachineCall,
) -> Result<MachineAnswer, Refused>
    ensures { (result, state machine.new) ≡ called B.Board call (state machine.old) }
{
    let answer = match call {
        MachineCall::Step => MachineAnswer::Stepped(machine.step()?),
        MachineCall::Run(target) => MachineAnswer::Ran(machine.run(target)?),
        MachineCall::Steps(most) => MachineAnswer::Steps(make_steps(machine, most)),
        MachineCall::State => state_of(machine),
        MachineCall::Show => MachineAnswer::Shown(machine.board().show()),
    };
    Ok(answer)
}
