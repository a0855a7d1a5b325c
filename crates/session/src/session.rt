// A script's session: the board that stands alone, and a schedule whose entries are still to be read.
ghost use Rattle.std.specs.Prelude.{◌≡◌, IfOk, is_some};
ghost use Rattle.text.specs.Words.{words};
ghost use Rattle.script.specs.Calls.{entry_of};
ghost use Rattle.session.specs.Session.{fresh, end_reply, Read, Begun, MadeOf, CallMade, WithLine, EntryHeard, LineRead};

use crate::alone::{call_board, place};
use crate::boards::{matrix, schedule, switches};
use crate::failure::Failure;
use crate::reply::{Outcome, Reply};
use board::any::AnyBoard;
use board::schedule::Entry;
use script::call::{Call, Kind, Purpose};
use script::parse::{parse_call, parse_entry};
use std::alloc::{AllocError, Global};
use text::line::is_skipped;

// A schedule whose entries follow: how many are still to come, and those read so far, or none once a line was no entry.
#[derive(Drop)]
pub struct Waiting {
    purpose: Purpose,
    left: u32,
    entries: Option<Vec<Entry>>,
}

// The entries lie on its heap.
#[derive(Drop)]
pub struct Session {
    heap: Global,
    alone: Option<AnyBoard<'static>>,
    waiting: Option<Waiting>,
}

impl Waiting {
    // One line read: its entry comes last, and a line that is none leaves no entries.
    fn with_line(self, line: &str) -> Result<Waiting, AllocError>
        ensures { IfOk result (λ w. WithLine (entry_of (words line.now)) self w) }
    {
        let entries = match (self.entries, parse_entry(line)) {
            (Some(mut entries), Ok(entry)) => {
                entries.push(entry)?;
                Some(entries)
            }
            _ => None,
        };
        Ok(Waiting {
            purpose: self.purpose,
            left: self.left.saturating_sub(1),
            entries,
        })
    }
}

impl Session {
    pub fn new(heap: Global) -> Session
        ensures { result ≡ fresh heap }
    {
        Session {
            heap,
            alone: None,
            waiting: None,
        }
    }

    // One line of a script that makes no calls of a machine.
    pub fn line(&mut self, line: &str) -> Result<Outcome, AllocError>
        ensures { IfOk result (λ reply. LineRead line.now self.old reply self.new) }
    {
        if is_skipped(line) {
            return Ok(Ok(None));
        }
        if self.awaits_entry() {
            return self.entry(line);
        }
        Ok(match parse_call(line) {
            Ok(call) => self.call(call),
            Err(problem) => Err(problem.into()),
        })
    }

    // The script is at its end.
    pub fn end(&self) -> Outcome
        ensures { result ≡ end_reply self.now.waiting }
    {
        match self.waiting {
            Some(_) => Err(Failure::MissingEntries),
            None => Ok(None),
        }
    }

    // Whether the next line is an entry of a schedule.
    pub fn awaits_entry(&self) -> bool
        ensures { result ≡ is_some self.now.waiting }
    {
        self.waiting.is_some()
    }

    // One entry of the schedule that is awaited; with none awaited the line does nothing.
    pub fn entry(&mut self, line: &str) -> Result<Outcome, AllocError>
        ensures { IfOk result (λ reply. EntryHeard self.old.waiting (entry_of (words line.now)) self.old reply self.new) }
    {
        let Some(waiting) = self.waiting.take() else {
            return Ok(Ok(None));
        };
        let waiting = waiting.with_line(line)?;
        Ok(self.read_on(waiting))
    }

    // One call.
    pub fn call(&mut self, call: Call) -> Outcome
        ensures { CallMade call self.old result self.new }
    {
        match call {
            Call::Make(purpose, kind) => self.make(purpose, kind),
            Call::Listing => Ok(Some(Reply::Listing)),
            Call::OfBoard(call) => Ok(Some(Reply::Said(call_board(&mut self.alone, call)?))),
            Call::NotOffered => Err(Failure::NotOffered),
        }
    }

    // Makes the board that a call describes.
    fn make(&mut self, purpose: Purpose, kind: Kind) -> Outcome
        ensures { MadeOf purpose kind self.old result self.new }
    {
        let made = match kind {
            Kind::Switches(reading) => switches(reading),
            Kind::Matrix(keys) => matrix(keys),
            Kind::Schedule(left) => return self.begin(purpose, left),
        };
        Ok(Some(place(&mut self.alone, purpose, made)?))
    }

    // Begins to read a schedule of so many entries.
    fn begin(&mut self, purpose: Purpose, left: u32) -> Outcome
        ensures { Begun purpose left self.old result self.new }
    {
        let entries = Some(Vec::new(self.heap));
        self.read_on(Waiting {
            purpose,
            left,
            entries,
        })
    }

    // Waits for the entries that are still to come, or makes the board.
    fn read_on(&mut self, waiting: Waiting) -> Outcome
        ensures { Read waiting self.old result self.new }
    {
        if waiting.left > 0 {
            self.waiting = Some(waiting);
            return Ok(None);
        }
        let Waiting {
            purpose,
            entries,
            ..
        } = waiting;
        let board = schedule(entries.ok_or(Failure::BadEntry)?);
        Ok(Some(place(&mut self.alone, purpose, board)?))
    }
}
