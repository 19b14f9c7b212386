// Bytes under names, in memory.
ghost use Rattle.std.specs.Prelude.{◌≡◌, ◌≢◌, ℕ, List, None, Some, OnOk, OnErr};
ghost use Rattle.std.specs.Option.{option_copied};
ghost use Rattle.pe_io.specs.Shelf.{IsGot, IsWithinLimit};
ghost use Rattle.pe_io.specs.Puts.{Puts, SameContents};

use crate::shelf::Got;
use std::alloc::{AllocError, Global};
use std::collections::BTreeMap;

/// What a shelf in memory holds.
#[derive(Drop)]
pub(crate) struct NamedBytes {
    alloc: Global,
    files: BTreeMap<String, Vec<u8>>,
}

impl NamedBytes {
    ghost use Rattle.pe_io.specs.NamedBytes.{bytes_in};

    /// No name.
    pub(crate) fn new(alloc: Global) -> NamedBytes
        ensures { (name : List ℕ) → bytes_in result name ≡ None }
    {
        NamedBytes {
            alloc,
            files: BTreeMap::new(alloc),
        }
    }

    /// The bytes under a name, if it is held.
    pub(crate) fn held(&self, name: &str) -> Option<&[u8]>
        ensures { option_copied result ≡ bytes_in self.now name.now }
    {
        match self.files.get(name) {
            Some(bytes) => Some(bytes.as_slice()),
            None => None,
        }
    }

    /// A copy of the bytes under a name, if there are no more than `limit`.
    pub(crate) fn copy(&self, name: &str, limit: u64) -> Got
        ensures got { IsGot (bytes_in self.now name.now) limit result }
        ensures limit { IsWithinLimit limit result }
        ensures sure { result ≢ Got.Failed }
    {
        match self.files.get(name) {
            Some(bytes) => copy_of(self.alloc, bytes, limit),
            None => Got::Absent,
        }
    }

    /// Puts bytes under a name, in the place of those that it held. After an `Err` all is as before.
    pub(crate) fn put(&mut self, name: &str, bytes: Vec<u8>) -> Result<(), AllocError>
        ensures ok { OnOk result (Puts (bytes_in self.old) name.now bytes.items (bytes_in self.new)) }
        ensures err { OnErr result (SameContents (bytes_in self.old) (bytes_in self.new)) }
    {
        let name = String::from_str(self.alloc, name)?;
        self.files.insert(name, bytes)?;
        Ok(())
    }

    /// Puts a copy of bytes under a name, as `put` does.
    pub(crate) fn add(&mut self, alloc: Global, name: &str, bytes: &[u8]) -> Result<(), AllocError>
        ensures ok { OnOk result (Puts (bytes_in self.old) name.now bytes.now (bytes_in self.new)) }
        ensures err { OnErr result (SameContents (bytes_in self.old) (bytes_in self.new)) }
    {
        let copy = bytes.to_vec(alloc)?;
        self.put(name, copy)
    }
}

/// A copy of the bytes, if there are no more than `limit`.
fn copy_of(alloc: Global, bytes: &[u8], limit: u64) -> Got
    ensures got { IsGot (Some bytes.now) limit result }
    ensures held { result ≢ Got.Absent }
    ensures sure { result ≢ Got.Failed }
{
    if bytes.len() as u64 > limit {
        return Got::Longer;
    }
    match bytes.to_vec(alloc) {
        Ok(copy) => Got::Whole(copy),
        Err(_) => Got::Memory,
    }
}
