ghost use Rattle.std.specs.Prelude.{◌≡◌, ◌<◌, ◌≤◌, [], length, None, IsOk, OnOk, OnErr};
ghost use Rattle.std.specs.Io.KnownBytes.{Appends};
ghost use Rattle.pe_base.specs.Calls.Counters.{CountsOne};
ghost use Rattle.pe_io.specs.StdSink.{AppendsPart};

use crate::sink::{Sink, SinkFailed};
use crate::whole::write_whole;
use std::io::Write;
use std::marker::Model;

/// A sink over a writer, such as that of the standard output. It tells no text, and keeps nothing back: what
/// was taken was given to the writer. Contracts see the writer, how many pieces it was given, and how often
/// it failed.
#[derive(Drop)]
pub struct StdSink<W> {
    writer: W,
    writes: u64,
    faults: u64,
}

impl<W> Model for StdSink<W> {
    ghost use Rattle.pe_io.specs.StdSink.{Output};

    ghost Value = { Output W };

    ghost view = { λ sink. record { writer = sink.writer; writes = sink.writes; faults = sink.faults } };
}

impl<W: Write> StdSink<W> {
    /// A sink over a writer, which was given nothing yet.
    pub fn new(writer: W) -> StdSink<W>
        ensures { result ≡ record { writer = writer; writes = 0; faults = 0 } }
    {
        StdSink {
            writer,
            writes: 0,
            faults: 0,
        }
    }
}

impl<W: Write> Sink for StdSink<W> {
    ghost text = { λ _. None };

    ghost writes = { λ sink. sink.writes };

    ghost faults = { λ sink. sink.faults };

    fn write(&mut self, bytes: &[u8]) -> Result<(), SinkFailed>
        ensures ok { OnOk result (Appends (W.contents self.old.writer) (W.contents self.new.writer) bytes.now) }
        ensures err { OnErr result (AppendsPart (W.contents self.old.writer) (W.contents self.new.writer) bytes.now) }
        ensures faults { self.old.faults ≤ self.new.faults }
        ensures failed { OnErr result (CountsOne self.old.faults self.new.faults) }
        ensures sound { OnOk result (self.new.faults ≡ self.old.faults) }
        ensures nothing { bytes.now ≡ [] → IsOk result }

        // A write of no bytes has no number.
        ensures uncounted { bytes.now ≡ [] → self.new ≡ self.old }
        ensures counted { 0 < length bytes.now → CountsOne self.old.writes self.new.writes }
    {
        if bytes.is_empty() {
            return Ok(());
        }
        self.writes = self.writes.saturating_add(1);
        match write_whole(&mut self.writer, bytes) {
            Ok(()) => Ok(()),
            Err(_) => {
                self.faults = self.faults.saturating_add(1);
                Err(SinkFailed)
            }
        }
    }
}
