//! The vertices and the cells of a stream.
ghost use Rattle.std.specs.Prelude.{◌≡◌, ◌*◌, ◌≤◌, length, slice_index, IsTrue, IfSome, IfOk, is_some};
ghost use Rattle.pe_base.specs.Limits.{most_fields};
ghost use Rattle.pe_base.specs.Life.Numbers.{state_number};
ghost use Rattle.pe_stream.specs.Layout.{vertex_bytes, vertex_size as size_of_vertex, fields_size as size_of_fields};
ghost use Rattle.pe_stream.specs.Saved.{is_at_rest};
ghost use Rattle.pe_stream.specs.Faults.{is_saved_state, first_unsaved_of, TestsUnlessMemory};
ghost use Rattle.pe_stream.specs.Parts.{IsReadVertex, AreVertices, AreCells};

use crate::fault::StreamFault;
use crate::fields::read_fields;
use crate::header::{fields_size, vertex_size};
use crate::saved::SavedVertex;
use pe_base::{Fields, State};
use std::alloc::{AllocError, Global};

/// The state that a byte says, if it is one that is saved.
fn state_of(byte: u8) -> Option<State>
    ensures byte { IfSome result (λ state. state_number state ≡ byte) }
    ensures rest { IfSome result (λ state. IsTrue (is_at_rest state)) }
    ensures variant { is_some result ≡ is_saved_state byte }
{
    match byte {
        0 => Some(State::Unrefined),
        1 => Some(State::RefinementTriggered),
        3 => Some(State::Refined),
        4 => Some(State::EraseTriggered),
        _ => None,
    }
}

/// The vertex of these bytes, if its state is one that is saved.
fn read_vertex(bytes: &[u8], count: u8) -> Option<SavedVertex>
    requires few { count ≤ most_fields }
    requires size { length bytes.now ≡ size_of_vertex count }
    ensures bytes { IfSome result (λ vertex. vertex_bytes count vertex ≡ bytes.now) }
    ensures vertex { IfSome result (IsReadVertex count) }
    ensures variant { is_some result ≡ is_saved_state (slice_index bytes.now 0) }
{
    let state = state_of(bytes[0])?;
    let fields = read_fields(&bytes[1..], count);
    Some(SavedVertex { state, fields })
}

/// The vertices with which the bytes begin.
pub(crate) fn read_vertices(
    alloc: Global,
    bytes: &[u8],
    count: u64,
    fields: u8,
) -> Result<Vec<SavedVertex>, StreamFault>
    requires few { fields ≤ most_fields }
    requires long { count * size_of_vertex fields ≤ length bytes.now }
    ensures test { TestsUnlessMemory (first_unsaved_of (size_of_vertex fields) count bytes.now) result }
    ensures ok { IfOk result (λ vertices. AreVertices fields count bytes.now vertices.items) }
{
    let size = vertex_size(fields);
    let mut vertices = Vec::with_capacity(alloc, count as usize)?;
    let mut rest = bytes;
    for index in 0..count {
        let (front, after) = rest.split_at(size);
        let Some(vertex) = read_vertex(front, fields) else {
            return Err(StreamFault::State {
                index,
                found: front[0],
            });
        };
        vertices.push(vertex)?;
        rest = after;
    }
    Ok(vertices)
}

/// The cells with which the bytes begin. None is kept where they have no numbers.
pub(crate) fn read_cells(
    alloc: Global,
    bytes: &[u8],
    count: u64,
    fields: u8,
) -> Result<Vec<Fields>, AllocError>
    requires few { fields ≤ most_fields }
    requires long { count * size_of_fields fields ≤ length bytes.now }
    ensures ok { IfOk result (λ cells. AreCells fields count bytes.now cells.items) }
{
    if fields == 0 {
        return Ok(Vec::new(alloc));
    }
    let size = fields_size(fields);
    let mut cells = Vec::with_capacity(alloc, count as usize)?;
    let mut rest = bytes;
    for _ in 0..count {
        let (front, after) = rest.split_at(size);
        cells.push(read_fields(front, fields))?;
        rest = after;
    }
    Ok(cells)
}
