ghost use Rattle.std.specs.Prelude.{◌≡◌, IfSome, Some};
ghost use Rattle.pe_base.specs.Acts.Events.{name_of, number_of, sort_of, event_named};

/// What an event is told: nothing but the traversal, a vertex, or a cell.
#[derive(Clone, Copy, Debug, PartialEq, Eq)]
pub enum Sort {
    /// Of the traversal as a whole.
    Plain,
    /// Of a vertex.
    Vertex,
    /// Of a cell.
    Cell,
}

/// The moments of a traversal at which a scenario may act, in the order in which they are listed
/// wherever an order of events is needed.
#[derive(Clone, Copy, Debug, PartialEq, Eq)]
pub enum Event {
    /// Before the root.
    BeginIteration,
    /// After the root.
    EndIteration,
    /// At the first touch of a vertex that is not hanging.
    TouchVertexFirstTime,
    /// At the last touch of a vertex that is not hanging.
    TouchVertexLastTime,
    /// Before the first touch of a vertex that is born.
    CreateInnerVertex,
    /// At each load of a hanging vertex.
    CreateHangingVertex,
    /// After the last touch of a vertex that dies.
    DestroyVertex,
    /// At each store of a hanging vertex.
    DestroyHangingVertex,
    /// Before a cell that is born is entered.
    CreateCell,
    /// After a cell that dies is left.
    DestroyCell,
    /// Before the children of a cell.
    EnterCell,
    /// After the children of a cell.
    LeaveCell,
}

impl Event {
    /// How many events there are.
    pub const COUNT: usize = 12;

    /// The events in their order.
    pub const ALL: [Event; Event::COUNT] = [
        Event::BeginIteration,
        Event::EndIteration,
        Event::TouchVertexFirstTime,
        Event::TouchVertexLastTime,
        Event::CreateInnerVertex,
        Event::CreateHangingVertex,
        Event::DestroyVertex,
        Event::DestroyHangingVertex,
        Event::CreateCell,
        Event::DestroyCell,
        Event::EnterCell,
        Event::LeaveCell,
    ];

    /// The spelling of the event in scenarios and lines.
    pub fn name(self) -> &'static str
        ensures { result.now ≡ name_of self }
    {
        match self {
            Event::BeginIteration => "begin_iteration",
            Event::EndIteration => "end_iteration",
            Event::TouchVertexFirstTime => "touch_vertex_first_time",
            Event::TouchVertexLastTime => "touch_vertex_last_time",
            Event::CreateInnerVertex => "create_inner_vertex",
            Event::CreateHangingVertex => "create_hanging_vertex",
            Event::DestroyVertex => "destroy_vertex",
            Event::DestroyHangingVertex => "destroy_hanging_vertex",
            Event::CreateCell => "create_cell",
            Event::DestroyCell => "destroy_cell",
            Event::EnterCell => "enter_cell",
            Event::LeaveCell => "leave_cell",
        }
    }

    /// The event of a spelling, or `None` where no event is spelled so.
    pub fn of_name(name: &str) -> Option<Event>
        ensures found { IfSome result (λ event. name_of event ≡ name.now) }
        ensures only { (event : Event) → name_of event ≡ name.now → result ≡ Some event }
        ensures value { result ≡ event_named name.now }
    {
        spelled(name)
    }

    /// The place of the event among the twelve, counted from 0.
    pub fn number(self) -> u8
        ensures { result ≡ number_of self }
    {
        self as u8
    }

    /// What the event is told.
    pub fn sort(self) -> Sort
        ensures { result ≡ sort_of self }
    {
        match self {
            Event::BeginIteration | Event::EndIteration => Sort::Plain,
            Event::TouchVertexFirstTime
            | Event::TouchVertexLastTime
            | Event::CreateInnerVertex
            | Event::CreateHangingVertex
            | Event::DestroyVertex
            | Event::DestroyHangingVertex => Sort::Vertex,
            Event::CreateCell | Event::DestroyCell | Event::EnterCell | Event::LeaveCell => {
                Sort::Cell
            }
        }
    }
}

fn spelled(name: &str) -> Option<Event>
    ensures found { IfSome result (λ event. name_of event ≡ name.now) }
    ensures only { (event : Event) → name_of event ≡ name.now → result ≡ Some event }
{
    match name {
        "begin_iteration" => Some(Event::BeginIteration),
        "end_iteration" => Some(Event::EndIteration),
        "touch_vertex_first_time" => Some(Event::TouchVertexFirstTime),
        "touch_vertex_last_time" => Some(Event::TouchVertexLastTime),
        "create_inner_vertex" => Some(Event::CreateInnerVertex),
        "create_hanging_vertex" => Some(Event::CreateHangingVertex),
        "destroy_vertex" => Some(Event::DestroyVertex),
        "destroy_hanging_vertex" => Some(Event::DestroyHangingVertex),
        "create_cell" => Some(Event::CreateCell),
        "destroy_cell" => Some(Event::DestroyCell),
        "enter_cell" => Some(Event::EnterCell),
        "leave_cell" => Some(Event::LeaveCell),
        _ => None,
    }
}
