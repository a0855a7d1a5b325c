// A board that follows a list of readings in the host's memory.
ghost use Rattle.std.specs.Prelude.{◌≡◌, ℕ, ◌≤◌, IfOk};
ghost use Rattle.board.specs.Schedule.{ahead, has_come, calm_after, good, bad_from, first_bad, passed, reading_at, last_at, schedule_shows, schedule_advanced, schedule_told, schedule_quiet, schedule_of};
ghost use Rattle.board.specs.LawsKept.{schedule_laws};

use crate::contract::Board;
use crate::reading::{Outputs, Reading};
use crate::refused::BadEntry;

// Every entry's cycle is below this, and the count of cycles is held here.
pub const CYCLE_LIMIT: u64 = 1 << 40;

// From this cycle on, this reading.
#[derive(Clone, Copy)]
pub struct Entry {
    pub cycle: u64,
    pub reading: Reading,
}

// The cycles advanced, the first entry still to come, and the reading until then. That entry is an index, since a slice of the rest would bring its address in memory into what advancing means.
#[derive(Clone, Copy)]
pub struct Schedule<'a> {
    entries: &'a [Entry],
    at: u64,
    next: usize,
    current: Reading,
}

impl Entry {
    // Whether it has come by this cycle.
    fn has_come(&self, at: u64) -> bool
        ensures { result ≡ has_come at self.now }
    {
        self.cycle <= at
    }

    // For how many cycles after this one it does not come, at most 65,535.
    fn calm_after(&self, at: u64) -> u16
        ensures { result ≡ calm_after at self.now }
    {
        u16::try_from(self.cycle.saturating_sub(at).saturating_sub(1)).unwrap_or(u16::MAX)
    }

    // Whether its cycle is at least low and below limit, and its reading in range.
    fn is_good(&self, low: u64, limit: u64) -> bool
        ensures { result ≡ good low limit self.now }
    {
        self.cycle >= low && self.cycle < limit && self.reading.in_range()
    }
}

// How many of these entries have come by this cycle, up to the first that has not.
fn passed(coming: &[Entry], at: u64) -> usize
    ensures { result ≡ passed coming.now at }
{
    coming.iter().take_while(|entry| entry.has_come(at)).count()
}

// So many, and the reading of the last of them.
fn walk(coming: &[Entry], current: Reading, at: u64) -> (usize, Reading)
    ensures { (result.0 ≡ passed coming.now at) × (result.1 ≡ reading_at current coming.now at) }
{
    let come = passed(coming, at);
    match coming[..come].last() {
        Some(entry) => (come, entry.reading),
        None => (come, current),
    }
}

// The index of the first bad entry: the first stands at cycle 0, and each other above the one before and below the limit. Both bounds change from entry to entry, so a chain would carry them as this loop does.
fn first_bad(entries: &[Entry]) -> Option<usize>
    ensures { result ≡ bad_from 0 0 1 entries.now }
{
    let mut low = 0;
    let mut limit = 1;
    for (i, entry) in entries.iter().enumerate() {
        if !entry.is_good(low, limit) {
            return Some(i);
        }
        low = entry.cycle + 1;
        limit = CYCLE_LIMIT;
    }
    None
}

impl<'a> Schedule<'a> {
    // The schedule of these entries, at cycle 0; refused at the first bad entry, and at 0 where there is none at all.
    pub fn new(entries: &'a [Entry]) -> Result<Schedule<'a>, BadEntry>
        ensures answer { result ≡ schedule_of entries.entry }
        ensures shown { IfOk result (λ s. (d : Reading) (n : ℕ) → schedule_shows s n ≡ last_at d entries.now n) }
    {
        let [first, ..] = entries else {
            return Err(BadEntry { index: 0 });
        };
        if let Some(index) = first_bad(entries) {
            return Err(BadEntry { index });
        }
        Ok(Schedule {
            entries,
            at: 0,
            next: 1,
            current: first.reading,
        })
    }

    // The entries still to come.
    fn coming(&self) -> &'a [Entry]
        ensures { result.now ≡ ahead self.now }
    {
        self.entries.get(self.next..).unwrap_or_default()
    }
}

impl<'a> Board for Schedule<'a> {
    ghost shows = { schedule_shows };

    ghost advanced = { schedule_advanced };

    ghost told = { schedule_told };

    ghost laws = { schedule_laws };

    fn show(&self) -> Reading {
        let (_, shown) = walk(self.coming(), self.current, self.at.min(CYCLE_LIMIT));
        shown.on_pins()
    }

    fn advance(&mut self, n: u16) {
        let at = self.at.saturating_add(u64::from(n)).min(CYCLE_LIMIT);
        let (come, current) = walk(self.coming(), self.current, at);
        self.at = at;
        self.next += come;
        self.current = current;
    }

    // The cycles before the next entry comes, as far as the answer reaches.
    fn quiet(&self) -> u16
        ensures still { (k : ℕ) → k ≤ result → schedule_shows self.now k ≡ schedule_shows self.now 0 }
        ensures answer { result ≡ schedule_quiet self.now }
    {
        match self.coming() {
            [entry, ..] => entry.calm_after(self.at),
            [] => u16::MAX,
        }
    }

    fn tell(&mut self, outputs: Outputs) {}
}
