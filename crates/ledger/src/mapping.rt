ghost use Rattle.std.specs.Prelude.{◌≡◌};

use pe_base::{Dim, Effects, Event, Place, Stop};
use pe_mapping::Mapping;
use pe_stacks::{CellRec, Corners, Vertex};
use std::alloc::{AllocError, Global};

/// A number in a box.
#[derive(Drop)]
pub struct Number(pub Box<u64>);

/// It counts the vertices that it makes, in memory that it may lack. A first touch raises a vertex's number and asks it
/// to refine; on entering a cell, the cell takes the count, and its first corner is asked to erase.
#[derive(Drop)]
pub struct Ledger {
    alloc: Global,
    dim: Dim,
    greatest: u8,
    made: u64,
}

impl Ledger {
    /// A ledger for grids of this dimension, down to this level, that has made nothing.
    pub fn new(alloc: Global, dim: Dim, greatest: u8) -> Ledger
        ensures { result ≡ record { alloc = alloc; dim = dim; greatest = greatest; made = 0 } }
    {
        Ledger {
            alloc,
            dim,
            greatest,
            made: 0,
        }
    }
}

impl Effects for Ledger {
    type Plan = u8;

    ghost use Rattle.ledger.specs.Effects.{ledger_rules};
    ghost use Rattle.ledger.specs.Law.{ledger_lawful};

    ghost rules = { ledger_rules };

    ghost lawful = { ledger_lawful };
}

impl Mapping for Ledger {
    type V = Number;

    type C = Number;

    ghost use Rattle.std.specs.Prelude.{pos, [], ◌∷◌, Some, false};

    ghost numbers = { record { vertex = λ v. pos v.0.value ∷ []; cell = λ c. pos c.0.value ∷ [] } };

    ghost held = { λ it. record {
      plan = it.greatest;
      list = pos it.made ∷ [];
      told = record { text = Some []; writes = 0; faults = 0 };
      dim = it.dim;
      sure = false;
      lent = [];
    } };

    fn fresh_v(&mut self) -> Result<Number, AllocError> {
        let fresh = Box::new(self.alloc, 0)?;
        self.made = self.made.saturating_add(1);
        Ok(Number(fresh))
    }

    fn fresh_c(&mut self) -> Result<Number, AllocError> {
        Ok(Number(Box::new(self.alloc, 0)?))
    }

    fn plain_event(&mut self, _event: Event, _traversal: u64) -> Result<(), Stop> {
        Ok(())
    }

    fn vertex_event(
        &mut self,
        event: Event,
        _traversal: u64,
        at: &Place,
        vertex: &mut Vertex<Number>,
        _parents: &mut Corners<Number>,
        _parent: &mut CellRec<Number>,
    ) -> Result<(), Stop> {
        match event {
            Event::TouchVertexFirstTime => match vertex.payload().0.checked_add(1) {
                None => Err(Stop::Overflow),
                Some(next) => {
                    *vertex.payload_mut().0 = next;
                    vertex.refine(at.level, self.greatest);
                    Ok(())
                }
            },
            _ => Ok(()),
        }
    }

    fn cell_event(
        &mut self,
        event: Event,
        _traversal: u64,
        _at: &Place,
        cell: &mut CellRec<Number>,
        corners: &mut Corners<Number>,
        _parents: &mut Corners<Number>,
        _parent: &mut CellRec<Number>,
    ) -> Result<(), Stop> {
        match event {
            Event::EnterCell => {
                *cell.payload_mut().0 = self.made;
                corners.at_mut(0).erase();
                Ok(())
            }
            _ => Ok(()),
        }
    }
}
