//! In which range each field of a header must be.
ghost use Rattle.std.specs.Prelude.{◌≡◌};
ghost use Rattle.std.specs.Option.{option_copied};

use crate::expect::Expect;
use crate::fault::HeaderField;
use pe_base::limits::{MOST_FIELDS, MOST_LEVELS, MOST_TRAVERSALS};

/// The numbers from the least to the greatest.
#[derive(Clone, Copy)]
pub(crate) struct Range {
    least: u64,
    greatest: u64,
}

impl Range {
    ghost use Rattle.pe_stream.specs.Ranges.{within, only, is_in};

    fn within(least: u64, greatest: u64) -> Range
        ensures { result ≡ within least greatest }
    {
        Range { least, greatest }
    }

    fn only(number: u64) -> Range
        ensures { result ≡ only number }
    {
        Range::within(number, number)
    }

    /// Whether a number is one of them.
    pub(crate) fn contains(self, number: u64) -> bool
        ensures { result ≡ is_in self number }
    {
        self.least <= number && number <= self.greatest
    }
}

impl HeaderField {
    ghost use Rattle.pe_stream.specs.Ranges.{limits, expected, range_of, IsNarrower};

    /// The range of the field, as it is expected, or else that of every stream.
    pub(crate) fn range(self, expect: Option<&Expect>) -> Range
        ensures range { result ≡ range_of (option_copied expect.entry) self }
        ensures narrow { IsNarrower result (limits self) }
    {
        match expect {
            Some(expect) => self.expected(expect),
            None => self.limits(),
        }
    }

    fn limits(self) -> Range
        ensures { result ≡ limits self }
    {
        match self {
            HeaderField::Dim => Range::within(2, 4),
            HeaderField::MaxLevel => Range::within(1, u64::from(MOST_LEVELS)),
            HeaderField::VertexFields | HeaderField::CellFields | HeaderField::GlobalFields => {
                Range::within(0, MOST_FIELDS as u64)
            }
            HeaderField::Zero => Range::only(0),
            HeaderField::Traversals => Range::within(1, MOST_TRAVERSALS),
        }
    }

    fn expected(self, expect: &Expect) -> Range
        ensures range { result ≡ expected expect.now self }
        ensures narrow { IsNarrower result (limits self) }
    {
        match self {
            HeaderField::Dim => Range::only(u64::from(expect.dim.axes())),
            HeaderField::MaxLevel => Range::only(u64::from(expect.max_level)),
            HeaderField::VertexFields => Range::only(u64::from(expect.vertex_fields)),
            HeaderField::CellFields => Range::only(u64::from(expect.cell_fields)),
            HeaderField::GlobalFields => Range::only(u64::from(expect.global_fields)),
            HeaderField::Zero => Range::only(0),
            HeaderField::Traversals => Range::within(1, MOST_TRAVERSALS - expect.traversals),
        }
    }
}
