//! A stream to measure with.

use std::alloc::{AllocError, Global};

/// How many bytes stand before the vertices: the header, and eight numbers of the whole grid and of the root.
const FRONT: usize = 168;

/// The bytes of a vertex and of a cell, with eight numbers each.
const PAIR: usize = 129;

/// A stream of so many vertices and as many cells, with eight fields of each kind.
pub fn stream(alloc: Global, count: u32) -> Result<Vec<u8>, AllocError> {
    let mut bytes = vec![in alloc; 0; FRONT + PAIR * count as usize]?;
    bytes[..8].copy_from_slice(b"PEANOSTK");
    bytes[8..14].copy_from_slice(&[1, 2, 5, 8, 8, 8]);
    bytes[16] = 1;
    bytes[24..28].copy_from_slice(&count.to_le_bytes());
    bytes[32..36].copy_from_slice(&count.to_le_bytes());
    Ok(bytes)
}
