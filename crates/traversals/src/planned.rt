ghost use Rattle.std.specs.Prelude.{◌≡◌, ◌==◌, Ok, Err, if◌then◌else◌};
ghost use Rattle.pe_base.specs.declared.stop.Stop.TheVariants.{Overflow};
ghost use Rattle.traversals.specs.Effects.{following};

use ledger::Number;
use pe_base::{Dim, Effects, Event, Place, Stop};
use pe_mapping::Mapping;
use pe_stacks::{CellRec, Corners, Vertex};
use std::alloc::{AllocError, Global};

/// What is to happen at which events, which are numbered from 0 over all traversals.
#[derive(Clone, Copy, Debug, PartialEq, Eq)]
pub struct Plan {
    /// The greatest level of the grid.
    pub greatest: u8,
    /// The event that overflows.
    pub refused: u64,
    /// The event that asks its vertex to refine, if it is one of a vertex.
    pub refined: u64,
    /// The event that asks its vertex to erase, if it is one of a vertex.
    pub erased: u64,
}

/// A mapping that counts its events and does what is planned. Its payloads are boxes, which can be neither cloned nor
/// copied.
#[derive(Drop)]
pub struct Planned {
    alloc: Global,
    dim: Dim,
    plan: Plan,
    events: u64,
}

impl Planned {
    /// A mapping for grids of this dimension, before its first event.
    pub fn new(alloc: Global, dim: Dim, plan: Plan) -> Planned
        ensures { result ≡ record { alloc = alloc; dim = dim; plan = plan; events = 0 } }
    {
        Planned {
            alloc,
            dim,
            plan,
            events: 0,
        }
    }

    /// How many events there were.
    pub fn events(&self) -> u64
        ensures { result ≡ self.now.events }
    {
        self.events
    }

    // Counts an event, and tells its number.
    fn count(&mut self) -> Result<u64, Stop>
        ensures counted { self.new ≡ record self.old { events = following self.old.events } }
        ensures answer { result ≡ (if self.old.events == self.old.plan.refused then Err Overflow else Ok self.old.events) }
    {
        let number = self.events;
        self.events = number.saturating_add(1);
        if number == self.plan.refused {
            Err(Stop::Overflow)
        } else {
            Ok(number)
        }
    }
}

impl Effects for Planned {
    type Plan = Plan;

    ghost use Rattle.traversals.specs.Effects.{planned_rules};
    ghost use Rattle.traversals.specs.Law.{planned_lawful};

    ghost rules = { planned_rules };

    ghost lawful = { planned_lawful };
}

impl Mapping for Planned {
    type V = Number;

    type C = Number;

    ghost use Rattle.std.specs.Prelude.{pos, [], ◌∷◌, Some, false};

    ghost numbers = { record { vertex = λ v. pos v.0.value ∷ []; cell = λ c. pos c.0.value ∷ [] } };

    ghost held = { λ it. record {
      plan = it.plan;
      list = pos it.events ∷ [];
      told = record { text = Some []; writes = 0; faults = 0 };
      dim = it.dim;
      sure = false;
      lent = [];
    } };

    fn fresh_v(&mut self) -> Result<Number, AllocError> {
        Ok(Number(Box::new(self.alloc, 0)?))
    }

    fn fresh_c(&mut self) -> Result<Number, AllocError> {
        Ok(Number(Box::new(self.alloc, 0)?))
    }

    fn plain_event(&mut self, _event: Event, _traversal: u64) -> Result<(), Stop> {
        match self.count() {
            Ok(_) => Ok(()),
            Err(stop) => Err(stop),
        }
    }

    fn vertex_event(
        &mut self,
        _event: Event,
        _traversal: u64,
        at: &Place,
        vertex: &mut Vertex<Number>,
        _parents: &mut Corners<Number>,
        _parent: &mut CellRec<Number>,
    ) -> Result<(), Stop> {
        match self.count() {
            Ok(number) if number == self.plan.refined => {
                vertex.refine(at.level, self.plan.greatest);
                Ok(())
            }
            Ok(number) if number == self.plan.erased => {
                vertex.erase();
                Ok(())
            }
            Ok(_) => Ok(()),
            Err(stop) => Err(stop),
        }
    }

    fn cell_event(
        &mut self,
        _event: Event,
        _traversal: u64,
        _at: &Place,
        _cell: &mut CellRec<Number>,
        _corners: &mut Corners<Number>,
        _parents: &mut Corners<Number>,
        _parent: &mut CellRec<Number>,
    ) -> Result<(), Stop> {
        match self.count() {
            Ok(_) => Ok(()),
            Err(stop) => Err(stop),
        }
    }
}
