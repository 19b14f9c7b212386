//! Reading all and writing all, by calls that may do less.
ghost use Rattle.std.specs.Prelude.{◌≡◌, ◌≢◌, ◌+◌, ◌≤◌, ◌++◌, length, Some, IfOk, IfErr, OnOk, OnErr};
ghost use Rattle.std.specs.IoError.{error_kind};
ghost use Rattle.std.specs.Io.KnownBytes.{Appends};
ghost use Rattle.pe_io.specs.Shelf.{IsGot, IsRead, IsWithinLimit, WhereTold};
ghost use Rattle.pe_io.specs.StdSink.{AppendsPart};

use crate::shelf::Got;
use std::alloc::{AllocError, Global};
use std::io;
use std::io::{Error, ErrorKind, Read, Write};

/// How many bytes are read at once.
const BUFFER: usize = 65536;

/// Passes an error on, unless it is that of a call which was interrupted and is to be made again.
fn again(e: Error) -> io::Result<()>
    ensures interrupted { OnOk result (error_kind e ≡ ErrorKind.Interrupted) }
    ensures failed { IfErr result (λ cause. (cause ≡ e) × (error_kind e ≢ ErrorKind.Interrupted)) }
{
    if e.kind() == ErrorKind::Interrupted {
        Ok(())
    } else {
        Err(e)
    }
}

/// Reads what a reader has left: `Got::Whole` where that is at most `limit` bytes, `Got::Longer` where it is more, and
/// `Got::Memory` where there is no memory for it. A read that is interrupted is asked again. An `Err` is the
/// reader's, or that of an endless row of interruptions; what was read until then is dropped.
pub fn read_whole<F: Read>(alloc: Global, file: &mut F, limit: u64) -> io::Result<Got>
    ensures limit { IfOk result (IsWithinLimit limit) }
    ensures read { IfOk result IsRead }

    // Where the reader tells what it has left, that is what is got.
    ensures bytes { IfOk result (λ got. WhereTold (F.remaining file.old) (λ left. IsGot (Some left) limit got)) }
    ensures retried { IfErr result (λ e. error_kind e ≢ ErrorKind.Interrupted) }
{
    let mut bytes = Vec::new(alloc);
    let mut buffer = [0u8; BUFFER];
    for _ in 0..u64::MAX {
        match file.read(&mut buffer) {
            Ok(0) => return Ok(Got::Whole(bytes)),
            Ok(n) => {
                if n as u64 > limit - bytes.len() as u64 {
                    return Ok(Got::Longer);
                }
                if append(&mut bytes, &buffer[..n], limit).is_err() {
                    return Ok(Got::Memory);
                }
            }
            Err(e) => again(e)?,
        }
    }
    Err(Error::from(ErrorKind::TimedOut))
}

/// Appends bytes for which the limit has room. Where they need memory, the vector grows to twice its length,
/// but not past the limit.
fn append(bytes: &mut Vec<u8>, more: &[u8], limit: u64) -> Result<(), AllocError>
    requires { length bytes.old.items + length more.now ≤ limit }
    ensures ok { OnOk result (bytes.new.items ≡ bytes.old.items ++ more.now) }
    ensures err { OnErr result (bytes.new.items ≡ bytes.old.items) }
{
    let len = bytes.len();
    if bytes.capacity() - len < more.len() {
        let growth = more.len().max(len).min(limit as usize - len);
        bytes.reserve_exact(growth)?;
    }
    bytes.extend_from_slice(more)
}

/// Writes all bytes. A write that is interrupted is asked again, and one that takes nothing has failed; any
/// other `Err` is the writer's, or that of an endless row of interruptions. After an `Err` a part of the
/// bytes was written.
pub fn write_whole<W: Write>(writer: &mut W, bytes: &[u8]) -> io::Result<()>
    ensures ok { OnOk result (Appends (W.contents writer.old) (W.contents writer.new) bytes.now) }
    ensures err { OnErr result (AppendsPart (W.contents writer.old) (W.contents writer.new) bytes.now) }
    ensures retried { IfErr result (λ e. error_kind e ≢ ErrorKind.Interrupted) }
{
    let mut done = 0;
    for _ in 0..u64::MAX {
        if done >= bytes.len() {
            return Ok(());
        }
        match writer.write(&bytes[done..]) {
            Ok(0) => return Err(Error::from(ErrorKind::WriteZero)),
            Ok(n) => done += n,
            Err(e) => again(e)?,
        }
    }
    Err(Error::from(ErrorKind::TimedOut))
}
