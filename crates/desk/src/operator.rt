// The machine that a script works on, once it has begun one.
ghost use Rattle.std.specs.Prelude.{◌≡◌, is_some};
ghost use Rattle.desk.specs.Operator.{begins, operated, operated_load, operator, starts, told, traced};

use crate::answer::{Answer, Failure};
use crate::trace::{StepLine, place_of};
use board::contract::Board;
use machine::machine::Machine;
use operate::answer::Refused;
use operate::call::{call_machine, load};
use orders::call::MachineCall;

#[derive(Drop)]
pub struct Operator<B> {
    machine: Option<Machine<B>>,
}

impl<B: Board + Drop> Operator<B> {
    // No machine is begun.
    pub fn new() -> Operator<B>
        ensures { operator result ≡ starts }
    {
        Operator { machine: None }
    }

    // A new machine on this board, in place of the old one.
    pub fn begin(&mut self, board: B) -> Answer
        ensures { (result, operator self.new) ≡ begins B.Board board }
    {
        self.machine = Some(Machine::new(board));
        Answer::OfScript(session::answer::Answer::Done)
    }

    // Whether a script has begun a machine.
    pub fn has_begun(&self) -> bool
        ensures { result ≡ is_some (operator self.now) }
    {
        self.machine.is_some()
    }

    // A call of the machine.
    pub fn call(&mut self, call: MachineCall) -> Result<Answer, Failure>
        ensures { (result, operator self.new) ≡ operated B.Board call (operator self.old) }
    {
        let machine = self.machine.as_mut().ok_or(Failure::NoMachine)?;
        Ok(Answer::OfMachine(call_machine(machine, call)?))
    }

    // Loads these bytes as an image.
    pub fn load_image(&mut self, image: &[u8]) -> Result<Answer, Failure>
        ensures { (result, operator self.new) ≡ operated_load B.Board image.now (operator self.old) }
    {
        let machine = self.machine.as_mut().ok_or(Failure::NoMachine)?;
        Ok(Answer::OfMachine(load(machine, image)?))
    }

    // One step, as a line tells it.
    pub fn trace_step(&mut self) -> Result<StepLine, Failure>
        ensures after { operator self.new ≡ traced B.Board (operator self.old) }
        ensures value { result ≡ told B.Board (operator self.old) }
    {
        let machine = self.machine.as_mut().ok_or(Failure::NoMachine)?;
        let place = place_of(machine);
        let answer = machine.step().map_err(Refused::Call)?;
        Ok(StepLine {
            place,
            answer,
            registers: machine.registers(),
        })
    }
}
