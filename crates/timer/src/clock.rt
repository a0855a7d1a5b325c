// What cycles make of the timer.
ghost use Rattle.std.specs.Prelude.{◌≡◌, ◌+◌, ◌<◌};
ghost use Rattle.timer.specs.Clock.{Runs, period, passes, risen_by};

use crate::state::Timer;

// t is kept modulo this.
pub const CLOCK_SPAN: u32 = 131072;

// TOF is set when t reaches a multiple of this.
pub const OVERFLOW_SPAN: u32 = 1024;

// Cycles from one tap to the next.
fn period(rate: u8) -> u32
    requires { rate < 4 }
    ensures { result ≡ period rate }
{
    1 << (14 + rate)
}

// Whether t reaches a multiple of n in so many cycles.
fn passes(n: u32, t: u32, cycles: u32) -> bool
    requires { (0 < n) × (n + cycles < 4294967296) }
    ensures { result ≡ passes n t cycles }
{
    t % n + cycles >= n
}

impl Timer {
    // So many cycles, fewer than 1,024, at once; every tap raises the stage where the watchdog is on.
    pub fn pass(&mut self, watched: bool, cycles: u32)
        requires { (Runs self.old) × (cycles < 1024) }
        ensures { self.new ≡ risen_by watched cycles self.old }
    {
        let t = self.t;
        self.t = (t + cycles) % CLOCK_SPAN;
        if passes(OVERFLOW_SPAN, t, cycles) {
            self.tof = true;
            if passes(period(self.rate), t, cycles) {
                self.rtif = true;
                self.stage += u8::from(watched);
            }
        }
    }
}
