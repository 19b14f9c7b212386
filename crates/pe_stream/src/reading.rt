//! Reading a stream.
ghost use Rattle.std.specs.Prelude.{◌≡◌, length, Ok, Err, ◌⊎◌, IfOk};
ghost use Rattle.std.specs.Option.{option_copied};
ghost use Rattle.pe_stream.specs.declared.saved.Saved.{Saved as ASaved};
ghost use Rattle.pe_stream.specs.Saved.{Spells, IsFew};
ghost use Rattle.pe_stream.specs.Faults.{first_fault, first_unsaved, length_of, TestsUnlessMemory};
ghost use Rattle.pe_stream.specs.Header.{BeginsWith};
ghost use Rattle.pe_stream.specs.Parts.{AreOf};

use crate::expect::Expect;
use crate::fault::StreamFault;
use crate::fields::read_fields;
use crate::header::{HEADER_SIZE, Header, fields_size, vertex_size};
use crate::opening::{check_length, read_header};
use crate::parts::{read_cells, read_vertices};
use crate::saved::Saved;
use pe_base::List;
use std::alloc::Global;

/// The saved grid of bytes that begin with this header and are as many as it asks for.
fn read_parts(alloc: Global, bytes: &[u8], header: &Header) -> Result<Saved, StreamFault>
    requires header { BeginsWith bytes.now header.now }
    requires size { length bytes.now ≡ length_of bytes.now }
    ensures test { TestsUnlessMemory (first_unsaved bytes.now) result }
    ensures saved { IfOk result (AreOf bytes.now) }
{
    let (globals, rest) = bytes[HEADER_SIZE..].split_at(fields_size(header.global_fields));
    let (root, rest) = rest.split_at(fields_size(header.cell_fields));
    let vertices = read_vertices(alloc, rest, header.vertices, header.vertex_fields)?;
    let rest = &rest[header.vertices as usize * vertex_size(header.vertex_fields)..];
    let cells = read_cells(alloc, rest, header.cells, header.cell_fields)?;
    Ok(Saved {
        dim: header.dim,
        max_level: header.max_level,
        vertex_fields: header.vertex_fields,
        cell_fields: header.cell_fields,
        global_fields: header.global_fields,
        finished: header.finished,
        globals: read_fields(globals, header.global_fields),
        root: read_fields(root, header.cell_fields),
        vertices: List::new(vertices),
        cell_count: header.cells,
        cells: List::new(cells),
    })
}

/// The saved grid that the bytes spell, or their first fault.
fn read(alloc: Global, bytes: &[u8], expect: Option<&Expect>) -> Result<Saved, StreamFault>
    ensures ok { IfOk result (Spells (option_copied expect.entry) bytes.now) }
    ensures fault { TestsUnlessMemory (first_fault (option_copied expect.entry) bytes.now) result }
{
    let header = read_header(bytes, expect)?;
    check_length(bytes, &header)?;
    read_parts(alloc, bytes, &header)
}

/// The saved grid that the bytes spell, in time that is linear in them, and with no memory but for its lists.
///
/// Its header must be as it is expected, or within the limits where nothing is expected. Bytes that spell no
/// such grid are refused with their first fault; want of memory comes whatever the bytes are.
pub fn read_stream(
    alloc: Global,
    bytes: &[u8],
    expect: Option<&Expect>,
) -> Result<Saved, StreamFault>
    // The bytes are those of the answer.
    ensures ok { IfOk result (Spells (option_copied expect.entry) bytes.now) }

    // Bytes of a saved grid are read as that one.
    ensures only { (saved : ASaved) → Spells (option_copied expect.entry) bytes.now saved
        → (result ≡ Ok saved) ⊎ (result ≡ Err StreamFault.Memory) }

    // Else the fault is the first in the order in which faults are looked for.
    ensures fault { TestsUnlessMemory (first_fault (option_copied expect.entry) bytes.now) result }

    // No more bytes than a stream may have hold no more vertices.
    ensures few { IfOk result (λ saved. IsFew (length bytes.now) saved) }
{
    read(alloc, bytes, expect)
}
