ghost use Rattle.std.specs.Prelude.{◌≡◌, ◌≢◌, ℕ, ◌≤◌, ◌↔◌, List, None, Some, Err, Contains, IfOk, OnOk, OnErr};
ghost use Rattle.std.specs.Option.{option_copied};
ghost use Rattle.pe_io.specs.Shelf.{IsGot, IsWithinLimit};
ghost use Rattle.pe_io.specs.Numbers.{IsNextListed};
ghost use Rattle.pe_io.specs.CallLog.{no_calls, counted, failed};
ghost use Rattle.pe_io.specs.Puts.{Puts, SameContents};

use crate::call_log::CallLog;
use crate::named_bytes::NamedBytes;
use crate::numbers::{has_next, set_of};
use crate::shelf::{Got, PutFault, Shelf, ShelfCall};
use std::alloc::{AllocError, Global};
use std::collections::BTreeSet;

/// A shelf in memory. It tells its contents, and fails exactly at the calls that it is told to fail.
#[derive(Drop)]
pub struct MemShelf {
    held: NamedBytes,
    failing: BTreeSet<u64>,
    calls: CallLog,
}

impl MemShelf {
    ghost use Rattle.pe_io.specs.MemShelf.{bytes_under, calls_of, failing_of};

    /// A shelf that holds no name. `fails` has the numbers of the calls that are to fail, counted from 1.
    pub fn new(alloc: Global, fails: &[u64]) -> Result<MemShelf, AllocError>
        ensures empty { IfOk result (λ shelf. (name : List ℕ) → bytes_under shelf name ≡ None) }
        ensures calls { IfOk result (λ shelf. calls_of shelf ≡ no_calls) }
        ensures failing { IfOk result (λ shelf. (n : ℕ) → Contains (failing_of shelf) n ↔ Contains fails.now n) }
    {
        Ok(MemShelf {
            held: NamedBytes::new(alloc),
            failing: set_of(alloc, fails)?,
            calls: CallLog::new(),
        })
    }

    /// Puts bytes under a name, in the place of those that it held. This is no call of the shelf.
    /// After an `Err` all is as before.
    pub fn add(&mut self, alloc: Global, name: &str, bytes: &[u8]) -> Result<(), AllocError>
        ensures ok { OnOk result (Puts (bytes_under self.old) name.now bytes.now (bytes_under self.new)) }
        ensures err { OnErr result (SameContents (bytes_under self.old) (bytes_under self.new)) }
        ensures calls { calls_of self.new ≡ calls_of self.old }
        ensures failing { failing_of self.new ≡ failing_of self.old }
    {
        self.held.add(alloc, name, bytes)
    }

    /// The bytes under a name, if it is held. Takes no memory, and is no call of the shelf.
    pub fn held(&self, name: &str) -> Option<&[u8]>
        ensures { option_copied result ≡ bytes_under self.now name.now }
    {
        self.held.held(name)
    }
}

impl Shelf for MemShelf {
    ghost use Rattle.pe_io.specs.MemShelf.{bytes_under, calls_of, failing_of};

    ghost contents = { λ shelf. Some (bytes_under shelf) };

    ghost calls = { λ shelf. (calls_of shelf).made };

    ghost faults = { λ shelf. (calls_of shelf).faults };

    ghost last_failed = { λ shelf. (calls_of shelf).last_failed };

    fn get(&mut self, name: &str, limit: u64) -> Got
        ensures told { IsGot (bytes_under self.old name.now) limit result }
        ensures limit { IsWithinLimit limit result }
        ensures contents { bytes_under self.new ≡ bytes_under self.old }
        ensures failing { failing_of self.new ≡ failing_of self.old }

        // It fails exactly at the calls whose numbers are listed.
        ensures cause { (result ≡ Got.Failed) ↔ IsNextListed (failing_of self.old) (calls_of self.old).made }
        ensures failed { result ≡ Got.Failed → calls_of self.new ≡ failed ShelfCall.Get name.now (counted (calls_of self.old)) }
        ensures sound { result ≢ Got.Failed → calls_of self.new ≡ counted (calls_of self.old) }
        ensures faults { (calls_of self.old).faults ≤ (calls_of self.new).faults }
    {
        let fails = has_next(&self.failing, self.calls.made());
        self.calls.count();
        if fails {
            self.calls.fail(ShelfCall::Get, name);
            return Got::Failed;
        }
        self.held.copy(name, limit)
    }

    fn put(&mut self, name: &str, bytes: Vec<u8>) -> Result<(), PutFault>
        ensures ok { OnOk result (Puts (bytes_under self.old) name.now bytes.items (bytes_under self.new)) }
        ensures err { OnErr result (SameContents (bytes_under self.old) (bytes_under self.new)) }
        ensures failing { failing_of self.new ≡ failing_of self.old }

        // It fails exactly at the calls whose numbers are listed.
        ensures cause { (result ≡ Err PutFault.Failed) ↔ IsNextListed (failing_of self.old) (calls_of self.old).made }
        ensures failed { result ≡ Err PutFault.Failed → calls_of self.new ≡ failed ShelfCall.Put name.now (counted (calls_of self.old)) }
        ensures sound { result ≢ Err PutFault.Failed → calls_of self.new ≡ counted (calls_of self.old) }
        ensures faults { (calls_of self.old).faults ≤ (calls_of self.new).faults }
    {
        let fails = has_next(&self.failing, self.calls.made());
        self.calls.count();
        if fails {
            self.calls.fail(ShelfCall::Put, name);
            return Err(PutFault::Failed);
        }
        match self.held.put(name, bytes) {
            Ok(()) => Ok(()),
            Err(_) => Err(PutFault::Memory),
        }
    }
}
