ghost use Rattle.std.specs.Prelude.{◌≡◌, ℕ, ◌<◌, ◌≤◌, List, [], length, Option, OnOk, OnErr, IsOk};
ghost use Rattle.pe_base.specs.Calls.Counters.{CountsOne, Rises};
ghost use Rattle.pe_base.specs.Calls.Told.{Appends};
ghost use Rattle.pe_io.specs.Sink.{AppendsPrefix};

/// A sink failed: it took only a part of what it was given, or nothing.
#[derive(Clone, Copy, Debug, PartialEq, Eq)]
pub struct SinkFailed;

/// Where text goes, piece after piece.
///
/// A sink may tell its text to contracts, and else promises only when it fails. Whether it tells it never
/// changes. It counts the pieces that it was given and its faults; each count stays at its last value,
/// `2^64 - 1`.
pub trait Sink {
    /// All that was taken so far, where the sink tells it.
    ghost text: { Self → Option (List ℕ) };

    /// How many pieces the sink was given, those of no bytes aside.
    ghost writes: { Self → ℕ };

    /// How often the sink failed.
    ghost faults: { Self → ℕ };

    /// Takes a piece. After an `Err` the sink has taken a prefix of it. Takes no memory.
    ///
    /// A sink that takes nothing of a piece that is not empty has failed.
    fn write(&mut self, bytes: &[u8]) -> Result<(), SinkFailed>
        ensures ok { OnOk result (Appends (text self.old) bytes.now (text self.new)) }
        ensures err { OnErr result (AppendsPrefix (text self.old) bytes.now (text self.new)) }
        ensures faults { faults self.old ≤ faults self.new }
        ensures failed { OnErr result (Rises (faults self.old) (faults self.new)) }
        ensures nothing { bytes.now ≡ [] → IsOk result }

        // A write of no bytes has no number.
        ensures uncounted { bytes.now ≡ [] → writes self.new ≡ writes self.old }
        ensures counted { 0 < length bytes.now → CountsOne (writes self.old) (writes self.new) };
}
