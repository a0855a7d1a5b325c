// A machine's steps, one line each.
ghost use Rattle.std.specs.Prelude.{◌≡◌, Some, IfOk, string_bytes};
ghost use Rattle.listing.specs.Text.{bytes_text, instruction_text};
ghost use Rattle.machine.specs.State.{state};
ghost use Rattle.desk.specs.Trace.{letter_of, of_instruction, place_in, place_text, registers_text, step_text};

use board::contract::Board;
use chip::state::Registers;
use listing::line::Line;
use machine::machine::Machine;
use std::alloc::{AllocError, Global};
use std::fmt;
use step::answer::{Kind, StepAnswer};

// Where a step begins: the total, and what stands at the program counter.
#[derive(Clone, Copy)]
pub struct Place {
    total: u64,
    line: Line,
}

// A step: where it began, what it answered, and the registers after it.
#[derive(Clone, Copy)]
pub struct StepLine {
    pub place: Place,
    pub answer: StepAnswer,
    pub registers: Registers,
}

// Registers and flags: A=03 X=10 SP=FF PC=0302 .I..C
#[derive(Clone, Copy)]
struct Shown(Registers);

// Where the machine's next step begins.
pub fn place_of<B: Board>(machine: &Machine<B>) -> Place
    ensures { result ≡ place_in B.Board (state machine.now) }
{
    Place {
        total: machine.total(),
        line: Line::read(machine.registers().pc, |at| machine.peek(at)),
    }
}

// A flag's letter, or a point where it is clear.
fn letter(set: bool, letter: &'static str) -> &'static str
    ensures { result.now ≡ letter_of set letter.now }
{
    if set { letter } else { "." }
}

impl fmt::Display for Shown {
    ghost output = { λ shown. Some (registers_text shown.0) };

    #[tactic(auto, using(opcodes::proofs::Hex::byte_output, opcodes::proofs::Hex::word_output))]
    fn fmt<W: fmt::Write>(&self, f: &mut fmt::Formatter<W>) -> fmt::Result {
        let Registers {
            a,
            x,
            sp,
            pc,
            flags,
        } = self.0;
        let h = letter(flags.h, "H");
        let i = letter(flags.i, "I");
        let n = letter(flags.n, "N");
        let z = letter(flags.z, "Z");
        let c = letter(flags.c, "C");
        write!(
            f,
            "A={a:02X} X={x:02X} SP={sp:02X} PC={pc:04X} {h}{i}{n}{z}{c}"
        )
    }
}

impl StepLine {
    // An instruction's bytes and text; other steps have none. A Display of several parts cannot be padded to a column, so they are Strings.
    fn instruction_texts(&self, heap: Global) -> Result<(String, String), AllocError>
        ensures { IfOk result (λ p. (string_bytes p.0 ≡ of_instruction self.now.answer.kind (bytes_text self.now.place.line)) × (string_bytes p.1 ≡ of_instruction self.now.answer.kind (instruction_text self.now.place.line))) }
    {
        let line = self.place.line;
        match self.answer.kind {
            Kind::Instruction => Ok((line.bytes_text(heap)?, line.instruction_text(heap)?)),
            Kind::External | Kind::Timer | Kind::Idle | Kind::IllegalAddress => {
                Ok((String::new(heap), String::new(heap)))
            }
        }
    }

    // PC, bytes and instruction where the step began.
    #[tactic(auto, using(opcodes::proofs::Hex::word_output))]
    fn place_text(&self, heap: Global) -> Result<String, AllocError>
        ensures { IfOk result (λ s. string_bytes s ≡ place_text self.now.place.line self.now.answer.kind) }
    {
        let address = self.place.line.address;
        let (bytes, instruction) = self.instruction_texts(heap)?;
        format!(in heap; "{address:04X}  {bytes:<8}  {instruction:<18}")
    }

    // Total and place where the step began; its kind, cost and reset; registers and flags after it.
    pub fn text(&self, heap: Global) -> Result<String, AllocError>
        ensures { IfOk result (λ s. string_bytes s ≡ step_text self.now) }
    {
        let StepAnswer { kind, cost, reset } = self.answer;
        let total = self.place.total;
        let place = self.place_text(heap)?;
        let shown = Shown(self.registers);
        format!(in heap; "{total:>8}  {place}  {kind:<11} {cost:>2}  {reset:<8}  {shown}")
    }
}
