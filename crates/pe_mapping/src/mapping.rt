ghost use Rattle.std.specs.Prelude.{◌≡◌};
ghost use Rattle.pe_base.specs.declared.event.Sort.TheVariants.{Plain, Vertex as OfVertex, Cell as OfCell};
ghost use Rattle.pe_base.specs.Acts.Events.{sort_of};
ghost use Rattle.pe_base.specs.Acts.Effects.{MayLeave, plain_sight};
ghost use Rattle.pe_stacks.specs.Corners.{IsFull};
ghost use Rattle.pe_mapping.specs.Held.{Held, Keeps, max_level, outcome_of, made_vertex, made_cell};
ghost use Rattle.pe_stacks.specs.Sights.{Numbers, vertex_sight, cell_sight};
ghost use Rattle.pe_base.specs.Acts.Moments.{IsTraversal, IsBelowRoot};
ghost use Rattle.pe_mapping.specs.Answers.{Answers, Makes};

use pe_base::{Effects, Event, Place, Stop};
use pe_stacks::{CellRec, Corners, Vertex};
use std::alloc::AllocError;

/// What happens at the moments of a walk.
///
/// A mapping states its effects as functions of plain data, by `Effects`, and its calls have these effects.
/// Payloads are seen as lists of whole numbers. They have no bounds: nothing but a mapping makes, reads or
/// changes them. An event changes numbers and triggers vertices; kinds stay, and corners stay full.
///
/// No call changes the plan, the dimension, whether the mapping is sure, or which values it holds by reference. A
/// mapping that is sure never wants memory.
pub trait Mapping: Effects {
    /// The payload of a vertex.
    type V;

    /// The payload of a cell.
    type C;

    /// How payloads are seen.
    ghost numbers: { Numbers Self.V Self.C };

    /// What the mapping holds.
    ghost held: { Self → Held Self.Plan };

    /// A payload of zeros for a vertex. An `Err` is want of memory.
    fn fresh_v(&mut self) -> Result<Self::V, AllocError>
        ensures answer { Makes numbers.vertex (made_vertex Self.rules (held self.old)) (held self.old) (held self.new) result }
        ensures keeps { Keeps (held self.old) (held self.new) }
        ensures told { (held self.new).told ≡ (held self.old).told };

    /// A payload of zeros for a cell. An `Err` is want of memory.
    fn fresh_c(&mut self) -> Result<Self::C, AllocError>
        ensures answer { Makes numbers.cell (made_cell Self.rules (held self.old)) (held self.old) (held self.new) result }
        ensures keeps { Keeps (held self.old) (held self.new) }
        ensures told { (held self.new).told ≡ (held self.old).told };

    /// Fires an event of the traversal as a whole.
    fn plain_event(&mut self, event: Event, traversal: u64) -> Result<(), Stop>
        requires traversal { IsTraversal traversal }
        requires sort { sort_of event ≡ Plain }
        ensures answer { Answers (outcome_of Self.rules (held self.old) event traversal plain_sight)
            (held self.old) (held self.new) plain_sight result }
        ensures lawful { MayLeave (max_level Self.rules (held self.old)) plain_sight plain_sight }
        ensures keeps { Keeps (held self.old) (held self.new) };

    /// Fires an event of a vertex, which sees the vertex, the corners of the parent cell and the parent cell.
    fn vertex_event(
        &mut self,
        event: Event,
        traversal: u64,
        at: &Place,
        vertex: &mut Vertex<Self::V>,
        parents: &mut Corners<Self::V>,
        parent: &mut CellRec<Self::C>,
    ) -> Result<(), Stop>
        requires traversal { IsTraversal traversal }
        requires sort { sort_of event ≡ OfVertex }
        requires place { IsBelowRoot at.now }
        requires parents { IsFull (held self.old).dim parents.old }
        ensures answer { Answers
            (outcome_of Self.rules (held self.old) event traversal (vertex_sight numbers at.now vertex.old parents.old parent.old))
            (held self.old) (held self.new) (vertex_sight numbers at.now vertex.new parents.new parent.new) result }
        ensures lawful { MayLeave (max_level Self.rules (held self.old))
            (vertex_sight numbers at.now vertex.old parents.old parent.old)
            (vertex_sight numbers at.now vertex.new parents.new parent.new) }
        ensures keeps { Keeps (held self.old) (held self.new) }
        ensures parents { IsFull (held self.old).dim parents.new };

    /// Fires an event of a cell, which sees the cell, its corners, the corners of the parent cell and the parent
    /// cell.
    fn cell_event(
        &mut self,
        event: Event,
        traversal: u64,
        at: &Place,
        cell: &mut CellRec<Self::C>,
        corners: &mut Corners<Self::V>,
        parents: &mut Corners<Self::V>,
        parent: &mut CellRec<Self::C>,
    ) -> Result<(), Stop>
        requires traversal { IsTraversal traversal }
        requires sort { sort_of event ≡ OfCell }
        requires place { IsBelowRoot at.now }
        requires parents { IsFull (held self.old).dim parents.old }
        requires corners { IsFull (held self.old).dim corners.old }
        ensures answer { Answers
            (outcome_of Self.rules (held self.old) event traversal (cell_sight numbers at.now cell.old corners.old parents.old parent.old))
            (held self.old) (held self.new) (cell_sight numbers at.now cell.new corners.new parents.new parent.new) result }
        ensures lawful { MayLeave (max_level Self.rules (held self.old))
            (cell_sight numbers at.now cell.old corners.old parents.old parent.old)
            (cell_sight numbers at.now cell.new corners.new parents.new parent.new) }
        ensures keeps { Keeps (held self.old) (held self.new) }
        ensures parents { IsFull (held self.old).dim parents.new }
        ensures corners { IsFull (held self.old).dim corners.new };
}
