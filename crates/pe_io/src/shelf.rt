ghost use Rattle.std.specs.Prelude.{◌≡◌, ◌≢◌, ℕ, ◌≤◌, None, Err, Option};
ghost use Rattle.pe_base.specs.Calls.Counters.{CountsOne};
ghost use Rattle.pe_io.specs.Shelf.{Contents, FailedCall, FailedAt, IsGot, IsWithinLimit, WhereTold};
ghost use Rattle.pe_io.specs.Puts.{ChangesTold};

/// The calls of a shelf.
#[derive(Clone, Copy, Debug, PartialEq, Eq)]
pub enum ShelfCall {
    /// `get`.
    Get,
    /// `put`.
    Put,
}

/// What a shelf answers to `get`.
#[derive(Debug, Drop)]
pub enum Got {
    /// All bytes under the name.
    Whole(Vec<u8>),
    /// The bytes under the name are longer than the limit.
    Longer,
    /// The shelf does not hold the name.
    Absent,
    /// The shelf failed. Its count of faults rose, and its last failed call is this one.
    Failed,
    /// Want of memory.
    Memory,
}

/// Why a shelf did not take what it was given by `put`.
#[derive(Clone, Copy, Debug, PartialEq, Eq)]
pub enum PutFault {
    /// The shelf failed. Its count of faults rose, and its last failed call is this one. The name may hold
    /// anything, or nothing; all other names hold what they held.
    Failed,
    /// Want of memory. All names hold what they held.
    Memory,
}

/// Bytes under names, such as files.
///
/// A shelf may tell its contents to contracts, and else promises only when it fails. Whether it tells
/// them never changes. It counts its calls and its faults; each count stays at its last value, `2^64 - 1`.
pub trait Shelf {
    /// What each name holds, where the shelf tells it.
    ghost contents: { Self → Option Contents };

    /// How many calls were made.
    ghost calls: { Self → ℕ };

    /// How many of them failed.
    ghost faults: { Self → ℕ };

    /// The last call that failed, if one did.
    ghost last_failed: { Self → Option FailedCall };

    /// The bytes under a name, if there are no more than `limit`. Contents stay.
    fn get(&mut self, name: &str, limit: u64) -> Got
        ensures told { WhereTold (contents self.old) (λ held. IsGot (held name.now) limit result) }
        ensures untold { contents self.old ≡ None → result ≢ Got.Absent }
        ensures limit { IsWithinLimit limit result }
        ensures contents { contents self.new ≡ contents self.old }
        ensures calls { CountsOne (calls self.old) (calls self.new) }
        ensures faults { faults self.old ≤ faults self.new }
        ensures failed { result ≡ Got.Failed → FailedAt ShelfCall.Get name.now (faults self.old) (faults self.new) (last_failed self.new) }

        // Only a failure takes the place of the last one.
        ensures stays { result ≢ Got.Failed → last_failed self.new ≡ last_failed self.old };

    /// Puts bytes under a name, in the place of those that it held.
    fn put(&mut self, name: &str, bytes: Vec<u8>) -> Result<(), PutFault>
        ensures told { WhereTold (contents self.old) (λ held. ChangesTold held name.now bytes.items result (contents self.new)) }
        ensures untold { contents self.old ≡ None → contents self.new ≡ None }
        ensures calls { CountsOne (calls self.old) (calls self.new) }
        ensures faults { faults self.old ≤ faults self.new }
        ensures failed { result ≡ Err PutFault.Failed → FailedAt ShelfCall.Put name.now (faults self.old) (faults self.new) (last_failed self.new) }
        ensures stays { result ≢ Err PutFault.Failed → last_failed self.new ≡ last_failed self.old };
}
