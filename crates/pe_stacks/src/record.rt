ghost use Rattle.std.specs.Prelude.{◌≡◌};
ghost use Rattle.std.specs.Borrow.{Lends, sem};
ghost use Rattle.pe_base.specs.Life.States.{is_old, is_new, refined_state, erased_state};

use pe_base::{Kind, State};

/// The record of a vertex: its state, its kind in this traversal and its payload.
///
/// A record is moved from hand to hand and never copied. It may be dropped only where its payload may.
#[derive(Drop)]
pub struct Vertex<P> {
    state: State,
    kind: Kind,
    payload: P,
}

impl<P> Vertex<P> {
    ghost use Rattle.pe_stacks.specs.contracts.record.Vertex.{the_row};

    /// A vertex with these parts.
    pub fn new(state: State, kind: Kind, payload: P) -> Vertex<P>
        ensures { result ≡ record { state = state; kind = kind; payload = payload } }
    {
        Vertex {
            state,
            kind,
            payload,
        }
    }

    /// The state.
    pub fn state(&self) -> State
        ensures { result ≡ self.now.state }
    {
        self.state
    }

    /// The kind.
    pub fn kind(&self) -> Kind
        ensures { result ≡ self.now.kind }
    {
        self.kind
    }

    /// The payload.
    pub fn payload(&self) -> &P
        ensures { result.now ≡ self.now.payload }
    {
        &self.payload
    }

    /// The payload, to be changed in place.
    pub fn payload_mut(&mut self) -> &mut P
        ensures value { result.now ≡ self.old.payload }
        ensures* writes_back { sem 𝓛 (Lends (the_row P.row) P.row self.entry result
            (λ w. record self.old { payload = w })) }
    {
        &mut self.payload
    }

    /// Whether the vertex is old: the cells around it were refined before the traversal.
    pub fn is_old(&self) -> bool
        ensures { result ≡ is_old self.now.state }
    {
        match self.state {
            State::Refined | State::EraseTriggered | State::Erasing => true,
            State::Unrefined | State::RefinementTriggered | State::Refining => false,
        }
    }

    /// Whether the vertex is new: the cells around it are refined after the traversal.
    pub fn is_new(&self) -> bool
        ensures { result ≡ is_new self.now.state }
    {
        match self.state {
            State::Refined | State::EraseTriggered | State::Refining => true,
            State::Unrefined | State::RefinementTriggered | State::Erasing => false,
        }
    }

    /// Sets what a first touch finds: the kind, and the state by the table.
    pub fn arrive(&mut self, kind: Kind, state: State)
        ensures { self.new ≡ record self.old { kind = kind; state = state } }
    {
        self.kind = kind;
        self.state = state;
    }

    /// Sets the state that a last touch leaves.
    pub fn depart(&mut self, state: State)
        ensures { self.new ≡ record self.old { state = state } }
    {
        self.state = state;
    }

    /// Triggers refinement, where the vertex is stored after the traversal, is unrefined and lies below
    /// the greatest level. Otherwise nothing changes.
    pub fn refine(&mut self, level: u8, max_level: u8)
        ensures { self.new ≡ record self.old {
          state = refined_state level max_level self.old.kind self.old.state;
        } }
    {
        match (self.kind, self.state) {
            (Kind::Kept | Kind::Born, State::Unrefined) if level < max_level => {
                self.state = State::RefinementTriggered;
            }
            _ => {}
        }
    }

    /// Triggers erasing, where the vertex is stored before and after the traversal and is refined.
    /// Otherwise nothing changes.
    pub fn erase(&mut self)
        ensures { self.new ≡ record self.old { state = erased_state self.old.kind self.old.state } }
    {
        match (self.kind, self.state) {
            (Kind::Kept, State::Refined) => self.state = State::EraseTriggered,
            _ => {}
        }
    }
}

/// The record of a cell: its payload.
///
/// A record is moved from hand to hand and never copied. It may be dropped only where its payload may.
#[derive(Drop)]
pub struct CellRec<P> {
    payload: P,
}

impl<P> CellRec<P> {
    ghost use Rattle.pe_stacks.specs.contracts.record.CellRec.{the_row};

    /// A cell with this payload.
    pub fn new(payload: P) -> CellRec<P>
        ensures { result ≡ record { payload = payload } }
    {
        CellRec { payload }
    }

    /// The payload.
    pub fn payload(&self) -> &P
        ensures { result.now ≡ self.now.payload }
    {
        &self.payload
    }

    /// The payload, to be changed in place.
    pub fn payload_mut(&mut self) -> &mut P
        ensures value { result.now ≡ self.old.payload }
        ensures* writes_back { sem 𝓛 (Lends (the_row P.row) P.row self.entry result
            (λ w. record { payload = w })) }
    {
        &mut self.payload
    }
}
