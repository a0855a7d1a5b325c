// What the timer holds.

// The clock t (modulo 2^17), the flags and enables of $0008, its rate (0 to 3), and the watchdog's stage.
#[derive(Clone, Copy, PartialEq, Eq, Debug, Default)]
pub struct Timer {
    pub t: u32,
    // timer overflow flag
    pub tof: bool,
    // real-time interrupt flag
    pub rtif: bool,
    // their enables
    pub toie: bool,
    pub rtie: bool,
    pub rate: u8,
    pub stage: u8,
}
