// All that a machine holds, for one line of text.
ghost use Rattle.std.specs.Prelude.{◌≡◌, Some};
ghost use Rattle.machine.specs.State.{state};
ghost use Rattle.operate.specs.Snapshot.{clock_text, cpu_text, image_hash, interrupt_byte, memory_text, ports_text, reading_text, snapshot_of, snapshot_text};

use bits::flag;
use board::contract::Board;
use board::reading::Reading;
use chip::state::{Interrupt, Mode, Port, Ports, Registers};
use machine::machine::Machine;
use part::rom::Rom;
use std::fmt;
use text::fnv::{fnv_from, fnv_of, fnv_with};
use text::hex_text::HexBytes;
use timer::state::Timer;

// The registers, RAM, the hash of the image, the ports, the mode, the timer, the external interrupt, the clock, and what the board shows.
#[derive(Clone, Copy)]
pub struct Snapshot {
    pub registers: Registers,
    pub ram: [u8; 64],
    pub image: u32,
    pub ports: Ports,
    pub mode: Mode,
    pub timer: Timer,
    pub interrupt: Interrupt,
    pub total: u64,
    pub shown: Reading,
}

// The hash of EPROM, option byte and vectors.
fn image_hash(rom: &Rom) -> u32
    ensures { result ≡ image_hash rom.now }
{
    let eprom = fnv_of(&rom.eprom);
    let options = fnv_with(eprom, rom.options);
    fnv_from(options, &rom.vectors)
}

// IRQE in bit 7, the last sample in bit 1, the latch in bit 0.
pub fn interrupt_byte(interrupt: &Interrupt) -> u8
    ensures { result ≡ interrupt_byte interrupt.now }
{
    flag(interrupt.enable, 128) + flag(interrupt.active, 2) + flag(interrupt.latch, 1)
}

// What the machine holds now.
pub fn take_snapshot<B: Board>(machine: &Machine<B>) -> Snapshot
    ensures { result ≡ snapshot_of B.Board (state machine.now) }
{
    Snapshot {
        registers: machine.registers(),
        ram: *machine.ram(),
        image: image_hash(machine.rom()),
        ports: machine.ports(),
        mode: machine.mode(),
        timer: machine.timer(),
        interrupt: machine.interrupt(),
        total: machine.total(),
        shown: machine.board().show(),
    }
}

// LA=.. to PB=..: latch, direction and pulldown bits of each port.
#[derive(Clone, Copy)]
struct PortsText(Ports);

impl fmt::Display for PortsText {
    ghost output = { λ x. Some (ports_text x.0) };

    fn fmt<W: fmt::Write>(&self, f: &mut fmt::Formatter<W>) -> fmt::Result {
        let Port {
            latch: la,
            direction: da,
            pulldown: pa,
        } = self.0.a;
        let Port {
            latch: lb,
            direction: db,
            pulldown: pb,
        } = self.0.b;
        write!(
            f,
            "LA={la:02x} DA={da:02x} PA={pa:02x} LB={lb:02x} DB={db:02x} PB={pb:02x}"
        )
    }
}

// Five numbers with commas between.
#[derive(Clone, Copy)]
struct ReadingText(Reading);

impl fmt::Display for ReadingText {
    ghost output = { λ x. Some (reading_text x.0) };

    fn fmt<W: fmt::Write>(&self, f: &mut fmt::Formatter<W>) -> fmt::Result {
        let Reading {
            level_a,
            open_a,
            level_b,
            open_b,
            irq,
        } = self.0;
        write!(f, "{level_a},{open_a},{level_b},{open_b},{irq}")
    }
}

// A=.. to CC=.., the condition byte.
#[derive(Clone, Copy)]
struct CpuText(Registers);

impl fmt::Display for CpuText {
    ghost output = { λ x. Some (cpu_text x.0) };

    fn fmt<W: fmt::Write>(&self, f: &mut fmt::Formatter<W>) -> fmt::Result {
        let Registers {
            a,
            x,
            sp,
            pc,
            flags,
        } = self.0;
        let condition = flags.condition_byte();
        write!(
            f,
            "A={a:02x} X={x:02x} SP={sp:02x} PC={pc:04x} CC={condition:02x}"
        )
    }
}

// RAM=.. and IMG=.., the hash of the image.
#[derive(Clone, Copy)]
struct MemoryText(Snapshot);

impl fmt::Display for MemoryText {
    ghost output = { λ x. Some (memory_text x.0) };

    fn fmt<W: fmt::Write>(&self, f: &mut fmt::Formatter<W>) -> fmt::Result {
        let image = self.0.image;
        write!(f, "RAM={} IMG={image:08x}", HexBytes(&self.0.ram))
    }
}

// MODE=.. to STAGE=...
#[derive(Clone, Copy)]
struct ClockText(Snapshot);

impl fmt::Display for ClockText {
    ghost output = { λ x. Some (clock_text x.0) };

    fn fmt<W: fmt::Write>(&self, f: &mut fmt::Formatter<W>) -> fmt::Result {
        let Snapshot {
            mode,
            timer,
            interrupt,
            total,
            ..
        } = self.0;
        write!(
            f,
            "MODE={} TSCR={:02x} IRQ={:02x} T={} TOTAL={total} STAGE={}",
            u8::from(mode),
            timer.control(),
            interrupt_byte(&interrupt),
            timer.t,
            timer.stage
        )
    }
}

impl fmt::Display for Snapshot {
    ghost output = { λ x. Some (snapshot_text x) };

    fn fmt<W: fmt::Write>(&self, f: &mut fmt::Formatter<W>) -> fmt::Result {
        write!(
            f,
            "state {} {} {} {} SHOW={}",
            CpuText(self.registers),
            MemoryText(*self),
            PortsText(self.ports),
            ClockText(*self),
            ReadingText(self.shown)
        )
    }
}
