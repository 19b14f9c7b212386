ghost use Rattle.std.specs.Prelude.{◌≡◌, ◌≤◌, take};
ghost use Rattle.pe_io.specs.CallLog.{no_calls, counted, failed};

use crate::shelf::ShelfCall;
use arrayvec::ArrayVec;
use std::marker::Model;

/// How many bytes of a failed call's name are kept.
const NAME_ROOM: usize = 4096;

/// A call that failed, and the first bytes of its name.
#[derive(Drop)]
pub(crate) struct LastFailed {
    call: ShelfCall,
    name: ArrayVec<u8, NAME_ROOM>,
}

/// The counts of a shelf's calls and of its faults, and its last failed call. Takes no memory.
#[derive(Drop)]
pub(crate) struct CallLog {
    made: u64,
    faults: u64,
    last: Option<LastFailed>,
}

impl Model for LastFailed {
    ghost use Rattle.pe_io.specs.Shelf.{FailedCall};

    ghost Value = { FailedCall };

    ghost view = { λ last. record { call = last.call; name = last.name.items } };
}

impl Model for CallLog {
    ghost use Rattle.pe_io.specs.CallLog.{Calls};

    ghost Value = { Calls };

    ghost view = { λ log. record { made = log.made; faults = log.faults; last_failed = log.last } };
}

impl LastFailed {
    ghost use Rattle.pe_io.specs.Shelf.{failed_call};

    fn new(call: ShelfCall, name: &str) -> LastFailed
        ensures { result ≡ failed_call call name.now }
    {
        LastFailed {
            call,
            name: first_bytes(name.as_bytes()),
        }
    }
}

/// The bytes, or as many of the first as are kept.
fn first_bytes(bytes: &[u8]) -> ArrayVec<u8, NAME_ROOM>
    ensures { result.items ≡ take NAME_ROOM bytes.now }
{
    let kept = NAME_ROOM.min(bytes.len());
    let mut first = ArrayVec::new();
    match first.try_extend_from_slice(&bytes[..kept]) {
        Ok(()) => first,
        Err(_) => unreachable!(),
    }
}

impl CallLog {
    pub(crate) fn new() -> CallLog
        ensures { result ≡ no_calls }
    {
        CallLog {
            made: 0,
            faults: 0,
            last: None,
        }
    }

    /// How many calls were made.
    pub(crate) fn made(&self) -> u64
        ensures { result ≡ self.now.made }
    {
        self.made
    }

    /// Counts a call.
    pub(crate) fn count(&mut self)
        ensures { self.new ≡ counted self.old }
    {
        self.made = self.made.saturating_add(1);
    }

    /// Counts a fault, and keeps its call.
    pub(crate) fn fail(&mut self, call: ShelfCall, name: &str)
        ensures failed { self.new ≡ failed call name.now self.old }
        ensures rises { self.old.faults ≤ self.new.faults }
    {
        self.faults = self.faults.saturating_add(1);
        self.last = Some(LastFailed::new(call, name));
    }
}
