ghost use Rattle.std.specs.Prelude.{◌≡◌, ◌≢◌, ℕ, List, None, Some, Err, IfOk, OnOk, OnErr};
ghost use Rattle.std.specs.Option.{option_copied};
ghost use Rattle.pe_base.specs.Calls.Counters.{CountsOne};
ghost use Rattle.pe_io.specs.Shelf.{IsGot, IsWithinLimit};
ghost use Rattle.pe_io.specs.Puts.{Puts, SameContents};

use crate::named_bytes::NamedBytes;
use crate::shelf::{Got, PutFault, Shelf};
use std::alloc::{AllocError, Global};

/// A shelf in memory that never fails. It tells its contents.
#[derive(Drop)]
pub struct SureShelf {
    held: NamedBytes,
    calls: u64,
}

impl SureShelf {
    ghost use Rattle.pe_io.specs.SureShelf.{bytes_under, calls_of};

    /// A shelf that holds no name.
    pub fn new(alloc: Global) -> Result<SureShelf, AllocError>
        ensures empty { IfOk result (λ shelf. (name : List ℕ) → bytes_under shelf name ≡ None) }
        ensures calls { IfOk result (λ shelf. calls_of shelf ≡ 0) }
    {
        Ok(SureShelf {
            held: NamedBytes::new(alloc),
            calls: 0,
        })
    }

    /// Puts bytes under a name, in the place of those that it held. This is no call of the shelf.
    /// After an `Err` all is as before.
    pub fn add(&mut self, alloc: Global, name: &str, bytes: &[u8]) -> Result<(), AllocError>
        ensures ok { OnOk result (Puts (bytes_under self.old) name.now bytes.now (bytes_under self.new)) }
        ensures err { OnErr result (SameContents (bytes_under self.old) (bytes_under self.new)) }
        ensures calls { calls_of self.new ≡ calls_of self.old }
    {
        self.held.add(alloc, name, bytes)
    }

    /// The bytes under a name, if it is held. Takes no memory, and is no call of the shelf.
    pub fn held(&self, name: &str) -> Option<&[u8]>
        ensures { option_copied result ≡ bytes_under self.now name.now }
    {
        self.held.held(name)
    }
}

impl Shelf for SureShelf {
    ghost use Rattle.pe_io.specs.SureShelf.{bytes_under, calls_of};

    ghost contents = { λ shelf. Some (bytes_under shelf) };

    ghost calls = { λ shelf. calls_of shelf };

    ghost faults = { λ _. 0 };

    ghost last_failed = { λ _. None };

    fn get(&mut self, name: &str, limit: u64) -> Got
        ensures told { IsGot (bytes_under self.old name.now) limit result }
        ensures limit { IsWithinLimit limit result }
        ensures contents { bytes_under self.new ≡ bytes_under self.old }
        ensures calls { CountsOne (calls_of self.old) (calls_of self.new) }
        ensures sure { result ≢ Got.Failed }
    {
        self.calls = self.calls.saturating_add(1);
        self.held.copy(name, limit)
    }

    fn put(&mut self, name: &str, bytes: Vec<u8>) -> Result<(), PutFault>
        ensures ok { OnOk result (Puts (bytes_under self.old) name.now bytes.items (bytes_under self.new)) }
        ensures err { OnErr result (SameContents (bytes_under self.old) (bytes_under self.new)) }
        ensures calls { CountsOne (calls_of self.old) (calls_of self.new) }
        ensures sure { result ≢ Err PutFault.Failed }
    {
        self.calls = self.calls.saturating_add(1);
        match self.held.put(name, bytes) {
            Ok(()) => Ok(()),
            Err(_) => Err(PutFault::Memory),
        }
    }
}
