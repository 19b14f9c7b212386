ghost use Rattle.std.specs.Prelude.{◌≡◌, length};

use pe_stream::{read_stream, write_stream};
use std::alloc::Global;
use std::io;
use std::io::{ErrorKind, Print};
use std::time::{Clock, Instant};

/// How many seconds the moves took: a copy of the bytes, a read of them, and a write of what was read.
#[derive(Clone, Copy)]
pub struct Times {
    copied: f64,
    read: f64,
    written: f64,
    /// How many vertices were read.
    pub vertices: usize,
    /// How many cells were read.
    pub cells: usize,
    /// Whether the same bytes were written.
    pub alike: bool,
}

impl Times {
    fn none() -> Times {
        Times {
            copied: 0.0,
            read: 0.0,
            written: 0.0,
            vertices: 0,
            cells: 0,
            alike: true,
        }
    }

    fn add(&mut self, other: &Times) {
        self.copied += other.copied;
        self.read += other.read;
        self.written += other.written;
        self.alike = self.alike && other.alike;
    }

    /// Prints the time of each move as a ratio to the copy.
    pub fn print(&self, rt: &impl Print) -> io::Result<()> {
        println!(rt; "copy   {:.3} s", self.copied)?;
        println!(rt;
            "read   {:.3} s, {:.2} copies",
            self.read,
            self.read / self.copied
        )?;
        println!(rt;
            "write  {:.3} s, {:.2} copies",
            self.written,
            self.written / self.copied
        )
    }
}

/// Copies the bytes of a stream, reads them, and writes what was read.
pub fn measure(rt: &impl Clock, alloc: Global, bytes: &[u8], target: &mut [u8]) -> io::Result<Times>
    requires { length target.old ≡ length bytes.now }
    ensures { length target.new ≡ length bytes.now }
{
    let start = Instant::now(rt)?;
    target.copy_from_slice(bytes);
    let copied = start.elapsed(rt)?.as_secs_f64();
    let start = Instant::now(rt)?;
    let Ok(saved) = read_stream(alloc, bytes, None) else {
        return Err(io::Error::from(ErrorKind::InvalidData));
    };
    let read = start.elapsed(rt)?.as_secs_f64();
    let start = Instant::now(rt)?;
    let again = write_stream(alloc, &saved)?;
    let written = start.elapsed(rt)?.as_secs_f64();
    Ok(Times {
        copied,
        read,
        written,
        vertices: saved.vertices.as_slice().len(),
        cells: saved.cells.as_slice().len(),
        alike: again.as_slice() == bytes,
    })
}

/// Measures so many times, after once that does not count.
pub fn measure_rounds(
    rt: &impl Clock,
    alloc: Global,
    bytes: &[u8],
    target: &mut [u8],
    rounds: u8,
) -> io::Result<Times>
    requires { length target.old ≡ length bytes.now }
{
    measure(rt, alloc, bytes, target)?;
    let mut all = Times::none();
    for _round in 0..rounds {
        let times = measure(rt, alloc, bytes, target)?;
        all.add(&times);
    }
    Ok(all)
}
