// A chip on its board, and its cycles there.
#![tactic(auto)]

ghost use Rattle.std.specs.Prelude.{◌≡◌, ◌<◌};
ghost use Rattle.timer.specs.Clock.{Runs};
ghost use Rattle.cycles.specs.Cycles.{cycled, Room};
ghost use Rattle.chip.specs.Cycle.{passed};
ghost use Rattle.chip.specs.Pins.{active};

use board::contract::Board;
use chip::state::Chip;

// A chip and the board that it is fitted on.
#[derive(Drop)]
pub struct Fitted<B> {
    pub chip: Chip,
    pub board: B,
}

impl<B: Board> Fitted<B> {
    // One cycle: the board advances, the pins are sampled and, unless it stands, t rises.
    fn cycle(&mut self, rises: bool)
        requires { Runs self.old.chip.timer }
        ensures chip { self.new.chip ≡ passed rises (active (B.shows (B.advanced self.old.board 1) 0) self.old.chip) 1 self.old.chip }
        ensures board { self.new.board ≡ B.advanced self.old.board 1 }
    {
        self.board.advance(1);
        let active = self.chip.active(&self.board.show());
        self.chip.pass(rises, active, 1);
    }

    // Cycles one by one.
    fn pass_each(&mut self, rises: bool, n: u8)
        requires { Room self.old.chip.timer n }
        ensures { (self.new.chip, self.new.board) ≡ cycled B.Board rises n self.old.chip self.old.board }
    {
        for _ in 0..n {
            self.cycle(rises);
        }
    }

    // So many cycles, one at least; at once where the board is quiet for them.
    pub fn pass_cycles(&mut self, rises: bool, n: u8)
        requires { (Room self.old.chip.timer n) × (0 < n) }
        ensures { (self.new.chip, self.new.board) ≡ cycled B.Board rises n self.old.chip self.old.board }
    {
        if self.board.quiet() >= u16::from(n) {
            let active = self.chip.active(&self.board.show());
            self.board.advance(u16::from(n));
            self.chip.pass(rises, active, u32::from(n));
        } else {
            self.pass_each(rises, n);
        }
    }
}
