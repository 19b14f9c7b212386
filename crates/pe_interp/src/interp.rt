ghost use Rattle.std.specs.Prelude.{◌≡◌};
ghost use Rattle.pe_interp.specs.Held.{held_of};

use crate::acting::act;
use pe_base::{Effects, Event, Fields, Place, Stop};
use pe_eval::View;
use pe_io::Sink;
use pe_mapping::Mapping;
use pe_scene::Scenario;
use pe_stacks::{CellRec, Corners, Vertex};
use std::alloc::AllocError;

/// The place of a plain event.
const ROOT: Place = Place {
    level: 0,
    pos: [0; 4],
};

/// The mapping of a scenario. Its list is the numbers of the whole grid. It is sure, and takes no memory.
pub struct Interp<'a, K> {
    scenario: &'a Scenario,
    globals: Fields,
    sink: &'a mut K,
}

impl<'a, K: Sink> Interp<'a, K> {
    /// The mapping of a scenario, with these numbers of the whole grid, that writes to a sink.
    pub fn new(scenario: &'a Scenario, globals: Fields, sink: &'a mut K) -> Interp<'a, K>
        ensures scenario { result.scenario.now ≡ scenario.now }
        ensures globals { result.globals ≡ globals }
        ensures sink { result.sink.now ≡ sink.old }
        ensures same_sink { result.sink.ghost_name ≡ sink.entry.ghost_name }
    {
        Interp {
            scenario,
            globals,
            sink,
        }
    }

    /// The numbers of the whole grid. The sink is left as it is.
    pub fn globals(self) -> Fields
        ensures globals { result ≡ self.entry.globals }
        ensures sink { self.exit.1.1.0.now ≡ self.entry.sink.now }
    {
        let Interp {
            scenario: _,
            globals,
            sink: _,
        } = self;
        globals
    }
}

impl<K> Effects for Interp<'_, K> {
    type Plan = Scenario;

    ghost use Rattle.pe_interp.specs.Effect.{scenario_rules};
    ghost use Rattle.pe_interp.specs.Law.{scenario_lawful};

    ghost rules = { scenario_rules };

    ghost lawful = { scenario_lawful };
}

impl<K: Sink> Mapping for Interp<'_, K> {
    type V = Fields;

    type C = Fields;

    ghost use Rattle.pe_stacks.specs.Sights.{fields_numbers};
    ghost use Rattle.pe_interp.specs.Held.{held_of};

    ghost numbers = { fields_numbers };

    ghost held = { held_of K.text K.writes K.faults };

    fn fresh_v(&mut self) -> Result<Fields, AllocError> {
        Ok(Fields::zero())
    }

    fn fresh_c(&mut self) -> Result<Fields, AllocError> {
        Ok(Fields::zero())
    }

    fn plain_event(&mut self, event: Event, traversal: u64) -> Result<(), Stop> {
        let mut numbers = self.globals;
        let mut view = View::Plain {
            t: traversal,
            globals: &mut numbers,
        };
        let answer = act(self.scenario, event, traversal, &ROOT, &mut view, self.sink);
        match view {
            View::Plain {
                globals: _globals,
                ..
            } => {}
            View::Vertex { .. } | View::Cell { .. } => unreachable!(),
        }
        self.globals = numbers;
        answer
    }

    fn vertex_event(
        &mut self,
        event: Event,
        traversal: u64,
        at: &Place,
        vertex: &mut Vertex<Fields>,
        parents: &mut Corners<Fields>,
        parent: &mut CellRec<Fields>,
    ) -> Result<(), Stop> {
        let mut numbers = self.globals;
        let mut view = View::Vertex {
            t: traversal,
            max_level: self.scenario.setup.max_level,
            at: *at,
            globals: &mut numbers,
            vertex,
            parents,
            parent,
        };
        let answer = act(self.scenario, event, traversal, at, &mut view, self.sink);
        match view {
            View::Vertex {
                globals: _globals,
                vertex: _vertex,
                parents: _parents,
                parent: _parent,
                ..
            } => {}
            View::Plain { .. } | View::Cell { .. } => unreachable!(),
        }
        self.globals = numbers;
        answer
    }

    fn cell_event(
        &mut self,
        event: Event,
        traversal: u64,
        at: &Place,
        cell: &mut CellRec<Fields>,
        corners: &mut Corners<Fields>,
        parents: &mut Corners<Fields>,
        parent: &mut CellRec<Fields>,
    ) -> Result<(), Stop> {
        let mut numbers = self.globals;
        let mut view = View::Cell {
            t: traversal,
            max_level: self.scenario.setup.max_level,
            at: *at,
            globals: &mut numbers,
            cell,
            corners,
            parents,
            parent,
        };
        let answer = act(self.scenario, event, traversal, at, &mut view, self.sink);
        match view {
            View::Cell {
                globals: _globals,
                cell: _cell,
                corners: _corners,
                parents: _parents,
                parent: _parent,
                ..
            } => {}
            View::Plain { .. } | View::Vertex { .. } => unreachable!(),
        }
        self.globals = numbers;
        answer
    }
}
