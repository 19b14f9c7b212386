//! The events of a mill in the plane as functions.
ghost use Rattle.std.specs.Prelude.{◌≤◌, ◌^◌};
ghost use Rattle.pe_base.specs.Acts.Moments.{IsBelowRoot};

use pe_base::{Fields, Place, Stop};
use pe_io::{Line, Sink};
use pe_stacks::{CellRec, Vertex};

/// The last touch of a vertex.
#[inline(never)]
pub fn touch(t: u64, max_level: u8, at: &Place, vertex: &mut Vertex<Fields>) -> Result<(), Stop>
    requires traversal { t ≤ 1000000000 }
    requires place { IsBelowRoot at.now }
{
    count_one(vertex.payload_mut())?;
    let place = position(at, 0) + 2 * position(at, 1) + 6;
    if place % 4 == 0 {
        vertex.refine(at.level, max_level);
    }
    if (place + t) % 9 == 0 {
        vertex.erase();
    }
    Ok(())
}

/// The position on an axis.
fn position(at: &Place, axis: usize) -> u64
    requires axis { axis ≤ 3 }
    requires place { IsBelowRoot at.now }
    ensures { result ≤ 3 ^ 20 }
{
    at.pos[axis]
}

/// The entry of a cell.
#[inline(never)]
pub fn enter(globals: &mut Fields, cell: &mut CellRec<Fields>) -> Result<(), Stop> {
    count_one(cell.payload_mut())?;
    count_one(globals)
}

/// Adds one to the first number.
fn count_one(fields: &mut Fields) -> Result<(), Stop> {
    match fields.get(0).checked_add(1) {
        Some(n) => {
            fields.set(0, n);
            Ok(())
        }
        None => Err(Stop::Overflow),
    }
}

/// The end of a traversal.
#[inline(never)]
pub fn end<K: Sink>(t: i64, globals: &Fields, sink: &mut K) -> Result<(), Stop> {
    let mut line = Line::of("print");
    line.signed(t);
    line.signed(globals.get(0));
    match line.end(sink) {
        Ok(()) => Ok(()),
        Err(_) => Err(Stop::Sink),
    }
}
