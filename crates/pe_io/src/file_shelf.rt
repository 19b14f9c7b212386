ghost use Rattle.std.specs.Prelude.{◌≡◌, ◌≢◌, ◌≤◌, None, Err, IfOk};
ghost use Rattle.pe_base.specs.Calls.Counters.{CountsOne};
ghost use Rattle.pe_io.specs.CallLog.{no_calls, counted};
ghost use Rattle.pe_io.specs.Shelf.{FailedAt, IsRead, IsWithinLimit};

use crate::call_log::CallLog;
use crate::shelf::{Got, PutFault, Shelf, ShelfCall};
use crate::whole::{read_whole, write_whole};
use std::alloc::Global;
use std::marker::Model;
use std::rt::Files;
use std::{fs, io};

/// The real files, by their paths. A file that is not there is a failure. It tells no contents, and contracts
/// see its counts and its last failed call. A `get` holds at most `limit` bytes and one buffer.
#[derive(Drop)]
pub struct FileShelf<'a, R> {
    alloc: Global,
    files: &'a R,
    calls: CallLog,
}

impl<'a, R> Model for FileShelf<'a, R> {
    ghost use Rattle.pe_io.specs.CallLog.{Calls};

    ghost Value = { Calls };

    ghost view = { λ shelf. shelf.calls };
}

impl<'a, R: Files> FileShelf<'a, R> {
    /// The files of a runtime.
    pub fn new(alloc: Global, rt: &'a R) -> FileShelf<'a, R>
        ensures { result ≡ no_calls }
    {
        FileShelf {
            alloc,
            files: rt,
            calls: CallLog::new(),
        }
    }
}

impl<R: Files> Shelf for FileShelf<'_, R> {
    ghost contents = { λ _. None };

    ghost calls = { λ shelf. shelf.made };

    ghost faults = { λ shelf. shelf.faults };

    ghost last_failed = { λ shelf. shelf.last_failed };

    fn get(&mut self, name: &str, limit: u64) -> Got
        ensures untold { result ≢ Got.Absent }
        ensures limit { IsWithinLimit limit result }
        ensures calls { CountsOne self.old.made self.new.made }
        ensures faults { self.old.faults ≤ self.new.faults }
        ensures failed { result ≡ Got.Failed → FailedAt ShelfCall.Get name.now self.old.faults self.new.faults self.new.last_failed }
        ensures stays { result ≢ Got.Failed → self.new.last_failed ≡ self.old.last_failed }

        // It counts each failure once, and nothing else.
        ensures fault { result ≡ Got.Failed → CountsOne self.old.faults self.new.faults }
        ensures sound { result ≢ Got.Failed → self.new ≡ counted self.old }
    {
        self.calls.count();
        match read_file(self.alloc, self.files, name, limit) {
            Ok(got) => got,
            Err(_) => {
                self.calls.fail(ShelfCall::Get, name);
                Got::Failed
            }
        }
    }

    fn put(&mut self, name: &str, bytes: Vec<u8>) -> Result<(), PutFault>
        ensures calls { CountsOne self.old.made self.new.made }
        ensures faults { self.old.faults ≤ self.new.faults }
        ensures failed { result ≡ Err PutFault.Failed → FailedAt ShelfCall.Put name.now self.old.faults self.new.faults self.new.last_failed }
        ensures stays { result ≢ Err PutFault.Failed → self.new.last_failed ≡ self.old.last_failed }

        // It counts each failure once, and nothing else.
        ensures fault { result ≡ Err PutFault.Failed → CountsOne self.old.faults self.new.faults }
        ensures sound { result ≢ Err PutFault.Failed → self.new ≡ counted self.old }
        ensures memory { result ≢ Err PutFault.Memory }
    {
        self.calls.count();
        match write_file(self.files, name, &bytes) {
            Ok(()) => Ok(()),
            Err(_) => {
                self.calls.fail(ShelfCall::Put, name);
                Err(PutFault::Failed)
            }
        }
    }
}

/// What a file holds, from its start to its end.
fn read_file<R: Files>(alloc: Global, files: &R, name: &str, limit: u64) -> io::Result<Got>
    ensures limit { IfOk result (IsWithinLimit limit) }
    ensures read { IfOk result IsRead }
{
    let mut file = fs::open(files, name)?;
    read_whole(alloc, &mut file, limit)
}

/// Makes a file of these bytes, in the place of one that there was.
fn write_file<R: Files>(files: &R, name: &str, bytes: &[u8]) -> io::Result<()> {
    let mut file = fs::create(files, name)?;
    write_whole(&mut file, bytes)
}
