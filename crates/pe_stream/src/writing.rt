//! Writing a stream.
ghost use Rattle.std.specs.Prelude.{◌≡◌, ◌≤◌, ◌++◌, IfOk, OnOk};
ghost use Rattle.std.specs.List.{flat_map};
ghost use Rattle.pe_base.specs.Limits.{most_fields};
ghost use Rattle.pe_stream.specs.Layout.{header_bytes, vertex_bytes, fields_bytes, stream_bytes};
ghost use Rattle.pe_stream.specs.Saved.{IsSaved};

use crate::fields::{write_fields, write_number};
use crate::header::{HEADER_SIZE, MAGIC, VERSION, fields_size, vertex_size};
use crate::saved::{Saved, SavedVertex};
use pe_base::Fields;
use std::alloc::{AllocError, Global};

fn write_header(out: &mut Vec<u8>, saved: &Saved) -> Result<(), AllocError>
    ensures { OnOk result (out.new.items ≡ out.old.items ++ header_bytes saved.now) }
{
    out.extend_from_slice(&MAGIC)?;
    out.extend_from_slice(&[
        VERSION,
        saved.dim.axes(),
        saved.max_level,
        saved.vertex_fields,
        saved.cell_fields,
        saved.global_fields,
        0,
        0,
    ])?;
    write_number(out, saved.finished)?;
    write_number(out, saved.vertices.as_slice().len() as u64)?;
    write_number(out, saved.cell_count)?;
    Ok(())
}

fn write_vertices(out: &mut Vec<u8>, vertices: &[SavedVertex], count: u8) -> Result<(), AllocError>
    requires { count ≤ most_fields }
    ensures { OnOk result (out.new.items ≡ out.old.items ++ flat_map (vertex_bytes count) vertices.now) }
{
    for vertex in vertices {
        out.push(vertex.state.number())?;
        write_fields(out, &vertex.fields, count)?;
    }
    Ok(())
}

fn write_cells(out: &mut Vec<u8>, cells: &[Fields], count: u8) -> Result<(), AllocError>
    requires { count ≤ most_fields }
    ensures { OnOk result (out.new.items ≡ out.old.items ++ flat_map (fields_bytes count) cells.now) }
{
    for cell in cells {
        write_fields(out, cell, count)?;
    }
    Ok(())
}

/// As many bytes as a stream has, or the greatest number of bytes.
fn size_of(saved: &Saved) -> usize {
    let numbers = fields_size(saved.global_fields) + fields_size(saved.cell_fields);
    let vertices = vertex_size(saved.vertex_fields).saturating_mul(saved.vertices.as_slice().len());
    let cells = fields_size(saved.cell_fields).saturating_mul(saved.cells.as_slice().len());
    (HEADER_SIZE + numbers)
        .saturating_add(vertices)
        .saturating_add(cells)
}

/// The bytes of a saved grid, in time and memory that are linear in them.
pub fn write_stream(alloc: Global, saved: &Saved) -> Result<Vec<u8>, AllocError>
    requires { IsSaved saved.now }
    ensures { IfOk result (λ bytes. bytes.items ≡ stream_bytes saved.now) }
{
    let mut out = Vec::with_capacity(alloc, size_of(saved))?;
    write_header(&mut out, saved)?;
    write_fields(&mut out, &saved.globals, saved.global_fields)?;
    write_fields(&mut out, &saved.root, saved.cell_fields)?;
    write_vertices(&mut out, saved.vertices.as_slice(), saved.vertex_fields)?;
    write_cells(&mut out, saved.cells.as_slice(), saved.cell_fields)?;
    Ok(out)
}
