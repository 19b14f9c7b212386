//! Laws of the bytes of saved grids. They are about the definitions, and the function does nothing.
ghost use Rattle.std.specs.Prelude.{◌≡◌, Option, None};
ghost use Rattle.pe_stream.specs.declared.expect.Expect.{Expect as AnExpect};
ghost use Rattle.pe_stream.specs.declared.saved.Saved.{Saved as ASaved};
ghost use Rattle.pe_stream.specs.Layout.{stream_bytes};
ghost use Rattle.pe_stream.specs.Ranges.{range_of, IsInRanges};
ghost use Rattle.pe_stream.specs.Saved.{IsSaved, IsHeld};
ghost use Rattle.pe_stream.specs.Faults.{first_fault};

/// No bytes are those of two saved grids, and the bytes of one have no fault where its header is in the ranges
/// that are asked for: what is written is read again.
pub fn one_spelling()
    ensures once { (s t : ASaved) → IsSaved s → IsHeld s → IsSaved t → IsHeld t → stream_bytes s ≡ stream_bytes t → s ≡ t }
    ensures faultless { (expect : Option AnExpect) (s : ASaved) → IsInRanges (range_of expect) s → IsSaved s → IsHeld s
        → first_fault expect (stream_bytes s) ≡ None }
{}
