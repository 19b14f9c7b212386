//! Why bytes are no stream.
ghost use Rattle.std.specs.Prelude.{◌≡◌};
ghost use Rattle.pe_stream.specs.declared.fault.StreamFault.TheVariants.{Memory};

use std::alloc::{AllocError, AllocFailed};
use thiserror::Error;

/// The fields of a stream's header, in the order in which they are looked at.
#[derive(Clone, Copy, Debug, PartialEq, Eq)]
pub enum HeaderField {
    /// The number of axes.
    Dim,
    /// The greatest level that a cell may have.
    MaxLevel,
    /// How many numbers a vertex has.
    VertexFields,
    /// How many numbers a cell has.
    CellFields,
    /// How many numbers the whole grid has.
    GlobalFields,
    /// Two bytes that are 0.
    Zero,
    /// How many traversals are finished.
    Traversals,
}

/// Why bytes are no stream, or not the stream that was expected.
#[derive(Clone, Copy, Debug, PartialEq, Eq, Error)]
pub enum StreamFault {
    /// There are too few bytes for a header, or not as many as the header asks for.
    #[error("a stream of another length")]
    Length {
        /// How many bytes there must be: 40 where there are fewer, or as many as the header asks for.
        expected: u128,
        /// How many bytes there are.
        found: u64,
    },
    /// The first eight bytes are not those of a stream.
    #[error("not a stream")]
    Magic,
    /// A version that is not known.
    #[error("a stream of another version")]
    Version {
        /// The version.
        found: u8,
    },
    /// A field of the header is out of its limits, or not as it was expected.
    #[error("a field of the header out of its range")]
    Header {
        /// The field.
        field: HeaderField,
        /// Its number.
        found: u64,
    },
    /// The byte of a vertex that says its state is none of a saved state.
    #[error("a vertex in a state that is not saved")]
    State {
        /// The vertex, counted from 0.
        index: u64,
        /// The byte.
        found: u8,
    },
    /// Want of memory.
    #[error("want of memory")]
    Memory,
}

impl From<AllocError> for StreamFault {
    ghost from_gives = { λ _ fault. fault ≡ Memory };

    fn from(_: AllocError) -> StreamFault {
        StreamFault::Memory
    }
}

impl<T: Drop> From<AllocFailed<T>> for StreamFault {
    ghost from_gives = { λ _ fault. fault ≡ Memory };

    fn from(_: AllocFailed<T>) -> StreamFault {
        StreamFault::Memory
    }
}
