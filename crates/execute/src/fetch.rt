// The instruction at the program counter.
ghost use Rattle.std.specs.Prelude.{◌≡◌};
ghost use Rattle.execute.specs.Fetch.{executed_as, fetched};

use crate::perform::perform;
use board::reading::Reading;
use chip::state::Chip;
use opcodes::Instruction;
use part::layout::{EPROM_FIRST, EPROM_LAST, between, wrapped};

// The code at the program counter and the two bytes after it.
#[derive(Clone, Copy)]
pub struct Fetched {
    pub code: u8,
    pub first: u8,
    pub second: u8,
}

// Most code lies in EPROM, where the three bytes stand side by side.
pub fn fetch(chip: &Chip, reading: &Reading) -> Fetched
    ensures { result ≡ fetched reading.now chip.now }
{
    let pc = chip.registers.pc;
    if between(EPROM_FIRST, EPROM_LAST - 2, pc) {
        let at = (pc - EPROM_FIRST) as usize;
        Fetched {
            code: chip.rom.eprom[at],
            first: chip.rom.eprom[at + 1],
            second: chip.rom.eprom[at + 2],
        }
    } else {
        Fetched {
            code: chip.read(reading, pc),
            first: chip.read(reading, pc.wrapping_add(1)),
            second: chip.read(reading, pc.wrapping_add(2)),
        }
    }
}

// Goes past the instruction and performs it.
pub fn execute(chip: &mut Chip, reading: &Reading, instruction: Instruction)
    ensures { chip.new ≡ executed_as instruction.row instruction.first instruction.second reading.now chip.old }
{
    let next = chip
        .registers
        .pc
        .wrapping_add(u16::from(instruction.row.length));
    chip.registers.pc = wrapped(next);
    perform(chip, reading, instruction);
}
