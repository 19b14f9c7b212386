ghost use Rattle.std.specs.Prelude.{◌≡◌, ℕ, ◌+◌, ◌<◌, ◌≤◌, ◌↔◌, [], ◌++◌, length, Some, Contains, IsErr, IfOk, OnOk, OnErr};
ghost use Rattle.pe_base.specs.Calls.Counters.{CountsOne};
ghost use Rattle.pe_io.specs.MemSink.{FailsAt};

use crate::numbers::{has_next, set_of};
use crate::sink::{Sink, SinkFailed};
use std::alloc::{AllocError, Global};
use std::collections::BTreeSet;
use std::marker::Model;

/// A sink in memory. It tells its text, and fails exactly at the writes that it is told to fail and at
/// those that would make its text longer than its room.
#[derive(Drop)]
pub struct MemSink {
    text: Vec<u8>,
    room: u64,
    failing: BTreeSet<u64>,
    writes: u64,
    faults: u64,
}

impl Model for MemSink {
    ghost use Rattle.std.specs.Prelude.{◌≤◌, vec_len, vec_capacity};
    ghost use Rattle.pe_io.specs.MemSink.{Written};

    ghost Value = { Written };

    ghost view = { λ sink. record { text = sink.text.items; room = sink.room; failing = sink.failing.keys; writes = sink.writes; faults = sink.faults } };

    ghost invariant = { λ sink. (vec_len sink.text ≤ sink.room) × (sink.room ≤ vec_capacity sink.text) };
}

impl MemSink {
    /// A sink with no text, which may become `room` bytes long. `fails` has the numbers of the writes that
    /// are to fail, counted from 1.
    pub fn new(alloc: Global, room: u64, fails: &[u64]) -> Result<MemSink, AllocError>
        ensures text { IfOk result (λ sink. sink.text ≡ []) }
        ensures room { IfOk result (λ sink. sink.room ≡ room) }
        ensures failing { IfOk result (λ sink. (n : ℕ) → Contains sink.failing n ↔ Contains fails.now n) }
        ensures writes { IfOk result (λ sink. sink.writes ≡ 0) }
        ensures faults { IfOk result (λ sink. sink.faults ≡ 0) }
    {
        Ok(MemSink {
            text: Vec::with_capacity(alloc, room as usize)?,
            room,
            failing: set_of(alloc, fails)?,
            writes: 0,
            faults: 0,
        })
    }

    /// The text. Takes no memory, and is no write.
    pub fn text(&self) -> &[u8]
        ensures { result.now ≡ self.now.text }
    {
        self.text.as_slice()
    }

    /// Takes bytes for which there is room.
    fn take(&mut self, bytes: &[u8])
        requires { length self.old.text + length bytes.now ≤ self.old.room }
        ensures { self.new ≡ record self.old { text = self.old.text ++ bytes.now } }
    {
        match self.text.extend_from_slice(bytes) {
            Ok(()) => {}
            Err(_) => unreachable!(),
        }
    }
}

impl Sink for MemSink {
    ghost text = { λ sink. Some sink.text };

    ghost writes = { λ sink. sink.writes };

    ghost faults = { λ sink. sink.faults };

    fn write(&mut self, bytes: &[u8]) -> Result<(), SinkFailed>
        ensures ok { OnOk result (self.new.text ≡ self.old.text ++ bytes.now) }
        ensures err { OnErr result (self.new.text ≡ self.old.text) }

        // It fails exactly at writes that are listed or pass the room.
        ensures cause { IsErr result ↔ FailsAt self.old bytes.now }
        ensures failed { OnErr result (CountsOne self.old.faults self.new.faults) }
        ensures sound { OnOk result (self.new.faults ≡ self.old.faults) }
        ensures faults { self.old.faults ≤ self.new.faults }

        // A write of no bytes has no number.
        ensures nothing { bytes.now ≡ [] → self.new ≡ self.old }
        ensures counted { 0 < length bytes.now → CountsOne self.old.writes self.new.writes }
        ensures room { self.new.room ≡ self.old.room }
        ensures failing { self.new.failing ≡ self.old.failing }
    {
        if bytes.is_empty() {
            return Ok(());
        }
        let listed = has_next(&self.failing, self.writes);
        self.writes = self.writes.saturating_add(1);
        if listed || bytes.len() as u64 > self.room - self.text.len() as u64 {
            self.faults = self.faults.saturating_add(1);
            return Err(SinkFailed);
        }
        self.take(bytes);
        Ok(())
    }
}
