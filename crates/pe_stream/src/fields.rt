//! Numbers as bytes, the lowest byte first.
ghost use Rattle.std.specs.Prelude.{◌≡◌, ◌≤◌, ◌++◌, length, take, OnOk};
ghost use Rattle.byteorder.specs.Endian.{little_number};
ghost use Rattle.pe_base.specs.Limits.{most_fields};
ghost use Rattle.pe_stream.specs.Layout.{number_bytes, signed_bytes, fields_bytes, fields_size};
ghost use Rattle.pe_stream.specs.Saved.{IsPadded, IsPayload};

use byteorder::{ByteOrder, LittleEndian};
use pe_base::Fields;
use std::alloc::AllocError;

/// How many bytes a number has.
pub(crate) const NUMBER_SIZE: usize = 8;

/// The number in the first eight bytes.
pub(crate) fn number_at(bytes: &[u8]) -> u64
    requires { 8 ≤ length bytes.now }
    ensures value { result ≡ little_number 8 bytes.now }
    ensures bytes { number_bytes result ≡ take 8 bytes.now }
{
    LittleEndian::read_u64(bytes)
}

/// The signed number in the first eight bytes.
pub(crate) fn signed_at(bytes: &[u8]) -> i64
    requires { 8 ≤ length bytes.now }
    ensures bytes { signed_bytes result ≡ take 8 bytes.now }
{
    LittleEndian::read_i64(bytes)
}

/// A payload that has these numbers, and 0 behind them.
pub(crate) fn read_fields(bytes: &[u8], count: u8) -> Fields
    requires few { count ≤ most_fields }
    requires size { length bytes.now ≡ fields_size count }
    ensures bytes { fields_bytes count result ≡ bytes.now }
    ensures padded { IsPadded count result }
    ensures payload { IsPayload result }
{
    let mut fields = Fields::zero();
    for i in 0..count {
        let number = signed_at(&bytes[NUMBER_SIZE * i as usize..]);
        fields.set(i, number);
    }
    fields
}

/// Appends the bytes of a number. After an `Err` they may be missing.
pub(crate) fn write_number(out: &mut Vec<u8>, n: u64) -> Result<(), AllocError>
    ensures { OnOk result (out.new.items ≡ out.old.items ++ number_bytes n) }
{
    let mut bytes = [0; NUMBER_SIZE];
    LittleEndian::write_u64(&mut bytes, n);
    out.extend_from_slice(&bytes)
}

/// Appends the bytes of a signed number.
fn write_signed(out: &mut Vec<u8>, n: i64) -> Result<(), AllocError>
    ensures { OnOk result (out.new.items ≡ out.old.items ++ signed_bytes n) }
{
    let mut bytes = [0; NUMBER_SIZE];
    LittleEndian::write_i64(&mut bytes, n);
    out.extend_from_slice(&bytes)
}

/// Appends the bytes of the first numbers of a payload.
pub(crate) fn write_fields(out: &mut Vec<u8>, fields: &Fields, count: u8) -> Result<(), AllocError>
    requires { count ≤ most_fields }
    ensures { OnOk result (out.new.items ≡ out.old.items ++ fields_bytes count fields.now) }
{
    for number in &fields.a[..count as usize] {
        write_signed(out, *number)?;
    }
    Ok(())
}
