//! The header of a stream.
ghost use Rattle.std.specs.Prelude.{◌≡◌, ◌≤◌, length, take, slice_index, OnOk};
ghost use Rattle.std.specs.Option.{option_copied};
ghost use Rattle.pe_stream.specs.Layout.{magic, version, header_size, fields_size as size_of_fields, vertex_size as size_of_vertex};
ghost use Rattle.pe_stream.specs.Ranges.{limits, range_of, IsIn};
ghost use Rattle.pe_stream.specs.Faults.{found, AreFoundIn, other_start, out_of_range, first_out_of_range, Tests};

use crate::expect::Expect;
use crate::fault::{HeaderField, StreamFault};
use crate::fields::{NUMBER_SIZE, number_at};
use byteorder::{ByteOrder, LittleEndian};
use pe_base::Dim;

/// The text with which a stream begins.
pub(crate) const MAGIC: [u8; 8] = *b"PEANOSTK";

/// The version of a stream.
pub(crate) const VERSION: u8 = 1;

/// How many bytes a header has.
pub(crate) const HEADER_SIZE: usize = 40;

/// The fields of a header in the order in which they are looked at.
const HEADER_FIELDS: [HeaderField; 7] = [
    HeaderField::Dim,
    HeaderField::MaxLevel,
    HeaderField::VertexFields,
    HeaderField::CellFields,
    HeaderField::GlobalFields,
    HeaderField::Zero,
    HeaderField::Traversals,
];

/// What a header says.
#[derive(Drop)]
pub(crate) struct Header {
    pub(crate) dim: Dim,
    pub(crate) max_level: u8,
    pub(crate) vertex_fields: u8,
    pub(crate) cell_fields: u8,
    pub(crate) global_fields: u8,
    pub(crate) finished: u64,
    pub(crate) vertices: u64,
    pub(crate) cells: u64,
}

impl HeaderField {
    /// What the bytes of a header say in the field.
    fn found(self, bytes: &[u8]) -> u64
        requires { header_size ≤ length bytes.now }
        ensures { result ≡ found bytes.now self }
    {
        match self {
            HeaderField::Dim => u64::from(bytes[9]),
            HeaderField::MaxLevel => u64::from(bytes[10]),
            HeaderField::VertexFields => u64::from(bytes[11]),
            HeaderField::CellFields => u64::from(bytes[12]),
            HeaderField::GlobalFields => u64::from(bytes[13]),
            HeaderField::Zero => u64::from(LittleEndian::read_u16(&bytes[14..])),
            HeaderField::Traversals => number_at(&bytes[16..]),
        }
    }
}

/// How many bytes so many numbers have.
pub(crate) fn fields_size(count: u8) -> usize
    ensures { result ≡ size_of_fields count }
{
    NUMBER_SIZE * count as usize
}

/// How many bytes a vertex with so many numbers has.
pub(crate) fn vertex_size(count: u8) -> usize
    ensures { result ≡ size_of_vertex count }
{
    1 + fields_size(count)
}

/// Looks for a header's room, the text with which a stream begins, and the version.
pub(crate) fn check_start(bytes: &[u8]) -> Result<(), StreamFault>
    ensures test { Tests (other_start bytes.now) result }
    ensures long { OnOk result (header_size ≤ length bytes.now) }
    ensures magic { OnOk result (take 8 bytes.now ≡ magic) }
    ensures version { OnOk result (slice_index bytes.now 8 ≡ version) }
{
    if bytes.len() < HEADER_SIZE {
        return Err(StreamFault::Length {
            expected: HEADER_SIZE as u128,
            found: bytes.len() as u64,
        });
    }
    if &bytes[..8] != MAGIC.as_slice() {
        return Err(StreamFault::Magic);
    }
    if bytes[8] != VERSION {
        return Err(StreamFault::Version { found: bytes[8] });
    }
    Ok(())
}

/// Looks whether a field is in its range.
fn check_field(field: HeaderField, bytes: &[u8], expect: Option<&Expect>) -> Result<(), StreamFault>
    requires { header_size ≤ length bytes.now }
    ensures test { Tests (out_of_range (range_of (option_copied expect.entry)) bytes.now field) result }
    ensures expected { OnOk result (IsIn (range_of (option_copied expect.entry) field) (found bytes.now field)) }
    ensures in_limits { OnOk result (IsIn (limits field) (found bytes.now field)) }
{
    let found = field.found(bytes);
    if !field.range(expect).contains(found) {
        return Err(StreamFault::Header { field, found });
    }
    Ok(())
}

/// Looks whether each field is in its range.
pub(crate) fn check_fields(bytes: &[u8], expect: Option<&Expect>) -> Result<(), StreamFault>
    requires { header_size ≤ length bytes.now }
    ensures test { Tests (first_out_of_range (range_of (option_copied expect.entry)) bytes.now) result }
    ensures expected { OnOk result (AreFoundIn (range_of (option_copied expect.entry)) bytes.now) }
    ensures in_limits { OnOk result (AreFoundIn limits bytes.now) }
{
    for field in HEADER_FIELDS {
        check_field(field, bytes, expect)?;
    }
    Ok(())
}
