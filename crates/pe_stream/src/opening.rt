//! The header with which a stream begins, and the length that it asks for.
ghost use Rattle.std.specs.Prelude.{◌≡◌, ◌*◌, ◌^◌, ◌≤◌, length, OnOk, IfOk};
ghost use Rattle.std.specs.Option.{option_copied};
ghost use Rattle.pe_stream.specs.Ranges.{range_of};
ghost use Rattle.pe_stream.specs.Faults.{AreFoundIn, other_header, other_length, length_of, Tests};
ghost use Rattle.pe_stream.specs.Header.{BeginsWith};

use crate::expect::Expect;
use crate::fault::StreamFault;
use crate::fields::{NUMBER_SIZE, number_at};
use crate::header::{HEADER_SIZE, Header, check_fields, check_start, fields_size, vertex_size};
use pe_base::Dim;

/// The header with which the bytes begin.
pub(crate) fn read_header(bytes: &[u8], expect: Option<&Expect>) -> Result<Header, StreamFault>
    ensures test { Tests (other_header (range_of (option_copied expect.entry)) bytes.now) result }
    ensures expected { OnOk result (AreFoundIn (range_of (option_copied expect.entry)) bytes.now) }
    ensures header { IfOk result (BeginsWith bytes.now) }
{
    check_start(bytes)?;
    check_fields(bytes, expect)?;
    let Some(dim) = Dim::new(bytes[9]) else {
        unreachable!()
    };
    Ok(Header {
        dim,
        max_level: bytes[10],
        vertex_fields: bytes[11],
        cell_fields: bytes[12],
        global_fields: bytes[13],
        finished: number_at(&bytes[16..]),
        vertices: number_at(&bytes[24..]),
        cells: number_at(&bytes[32..]),
    })
}

/// How many bytes so many items have.
fn bytes_of(count: u64, size: usize) -> u128
    requires { size ≤ 65 }
    ensures value { result ≡ count * size }
    ensures bound { result ≤ 2 ^ 71 }
{
    count as u128 * size as u128
}

/// Looks whether the bytes are as many as the header asks for.
pub(crate) fn check_length(bytes: &[u8], header: &Header) -> Result<(), StreamFault>
    requires { BeginsWith bytes.now header.now }
    ensures test { Tests (other_length bytes.now) result }
    ensures size { OnOk result (length bytes.now ≡ length_of bytes.now) }
{
    let numbers = bytes_of(u64::from(header.global_fields), NUMBER_SIZE)
        + bytes_of(u64::from(header.cell_fields), NUMBER_SIZE);
    let vertices = bytes_of(header.vertices, vertex_size(header.vertex_fields));
    let cells = bytes_of(header.cells, fields_size(header.cell_fields));
    let expected = HEADER_SIZE as u128 + numbers + vertices + cells;
    if bytes.len() as u128 != expected {
        return Err(StreamFault::Length {
            expected,
            found: bytes.len() as u64,
        });
    }
    Ok(())
}
