ghost use Rattle.std.specs.Prelude.{◌≡◌};

use crate::corners::count_corners;
use pe_base::{Dim, Effects, Event, Fields, Place, Stop};
use pe_mapping::Mapping;
use pe_stacks::{CellRec, Corners, Vertex};
use std::alloc::AllocError;

/// A mapping for whole grids: whenever a cell is entered, each of its corners is counted.
#[derive(Drop)]
pub struct Regular {
    dim: Dim,
    greatest: u8,
}

impl Regular {
    /// The mapping of a grid of this dimension and greatest level.
    pub fn new(dim: Dim, greatest: u8) -> Regular
        ensures { result ≡ record { dim = dim; greatest = greatest } }
    {
        Regular { dim, greatest }
    }
}

impl Effects for Regular {
    type Plan = u8;

    ghost use Rattle.bench_walk.specs.Regular.{regular_rules};
    ghost use Rattle.bench_walk.specs.Law.{regular_lawful};

    ghost rules = { regular_rules };

    ghost lawful = { regular_lawful };
}

impl Mapping for Regular {
    type V = Fields;

    type C = Fields;

    ghost use Rattle.std.specs.Prelude.{[], Some, true};
    ghost use Rattle.bench_walk.specs.Counting.{fields_numbers};

    ghost numbers = { fields_numbers };

    ghost held = { λ it. record {
      plan = it.greatest;
      list = [];
      told = record { text = Some []; writes = 0; faults = 0 };
      dim = it.dim;
      sure = true;
      lent = [];
    } };

    #[inline]
    fn fresh_v(&mut self) -> Result<Fields, AllocError> {
        Ok(Fields::zero())
    }

    #[inline]
    fn fresh_c(&mut self) -> Result<Fields, AllocError> {
        Ok(Fields::zero())
    }

    fn plain_event(&mut self, _event: Event, _traversal: u64) -> Result<(), Stop> {
        Ok(())
    }

    #[inline]
    fn vertex_event(
        &mut self,
        _event: Event,
        _traversal: u64,
        _at: &Place,
        _vertex: &mut Vertex<Fields>,
        _parents: &mut Corners<Fields>,
        _parent: &mut CellRec<Fields>,
    ) -> Result<(), Stop> {
        Ok(())
    }

    #[inline]
    fn cell_event(
        &mut self,
        event: Event,
        _traversal: u64,
        _at: &Place,
        _cell: &mut CellRec<Fields>,
        corners: &mut Corners<Fields>,
        _parents: &mut Corners<Fields>,
        _parent: &mut CellRec<Fields>,
    ) -> Result<(), Stop> {
        match event {
            Event::EnterCell => {
                count_corners(self.dim, corners);
                Ok(())
            }
            _ => Ok(()),
        }
    }
}
