ghost use Rattle.std.specs.Prelude.{◌≡◌, ◌<◌, [], length, None, IsOk};
ghost use Rattle.pe_base.specs.Calls.Counters.{CountsOne};

use crate::sink::{Sink, SinkFailed};
use std::marker::Model;

/// A sink that never fails. It keeps nothing of what is written but the count of its pieces, which is what
/// contracts see of it, and tells no text.
#[derive(Drop)]
pub struct SureSink {
    writes: u64,
}

impl Model for SureSink {
    ghost use Rattle.std.specs.Prelude.{ℕ};

    ghost Value = { ℕ };

    ghost view = { λ sink. sink.writes };
}

impl SureSink {
    /// A sink that was given nothing. Takes no memory.
    pub fn new() -> SureSink
        ensures { result ≡ 0 }
    {
        SureSink { writes: 0 }
    }
}

impl Sink for SureSink {
    ghost text = { λ _. None };

    ghost writes = { λ writes. writes };

    ghost faults = { λ _. 0 };

    fn write(&mut self, bytes: &[u8]) -> Result<(), SinkFailed>
        ensures sure { IsOk result }

        // A write of no bytes has no number.
        ensures uncounted { bytes.now ≡ [] → self.new ≡ self.old }
        ensures counted { 0 < length bytes.now → CountsOne self.old self.new }
    {
        if !bytes.is_empty() {
            self.writes = self.writes.saturating_add(1);
        }
        Ok(())
    }
}
