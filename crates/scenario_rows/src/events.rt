//! What a scenario's mapping does at events: the trace line, and then what the body says.
ghost use Rattle.std.specs.Prelude.{◌≡◌};
ghost use Rattle.pe_stacks.specs.Corners.{IsFull};

use pe_base::{Dim, Event, Fields, Kind, Place, State, Stop};
use pe_interp::Interp;
use pe_io::MemSink;
use pe_mapping::Mapping;
use pe_scene::{Scenario, read_scenario};
use pe_stacks::{CellRec, Corners, Vertex};
use std::alloc::{AllocError, Global};
use std::process::Abort;

const SCENARIO: &str = r#"
dim = 2
traversals = 1
max_level = 2
trace = ["begin_iteration", "touch_vertex_last_time", "leave_cell"]

[fields]
vertex = ["u"]
cell = ["c"]
global = ["sum"]

[events]
begin_iteration = "global.sum = 5; print t;"
touch_vertex_last_time = "v.u = p3.u + x0; refine v; erase p0; print v.state, v.u, parent.c;"
enter_cell = "cell.c = v0.u + 10 * v3.u; global.sum = global.sum + cell.c;"
leave_cell = "print 7 / -2, 7 % -2, -7 / 2, -7 % 2, 2 < 3, !5; print 1 / 0;"
"#;

const PLACE: Place = Place {
    level: 1,
    pos: [1, 2, 0, 0],
};

fn dim_of(scenario: &Scenario) -> Dim
    ensures { result ≡ scenario.now.setup.dim }
{
    scenario.setup.dim
}

fn read(rt: &impl Abort, alloc: Global) -> Scenario
    ensures { result.setup.dim ≡ 2 }
{
    let scenario = read_scenario(alloc, SCENARIO.as_bytes()).expect(rt, "a scenario");
    assert!(rt; dim_of(&scenario).axes() == 2);
    scenario
}

fn new_vertex(u: i64) -> Vertex<Fields> {
    let mut fields = Fields::zero();
    fields.set(0, u);
    Vertex::new(State::Unrefined, Kind::Kept, fields)
}

// Four corners, with these numbers.
fn square(dim: Dim, numbers: [i64; 4]) -> Corners<Fields>
    requires { dim ≡ 2 }
    ensures { IsFull 2 result }
{
    let [a, b, c, d] = numbers;
    let mut corners = Corners::empty(dim);
    corners.put(0, new_vertex(a));
    corners.put(1, new_vertex(b));
    corners.put(2, new_vertex(c));
    corners.put(3, new_vertex(d));
    corners
}

// Takes the corners out.
fn open(corners: Corners<Fields>)
    requires { IsFull 2 corners }
{
    let mut corners = corners;
    drop(corners.take(0));
    drop(corners.take(1));
    drop(corners.take(2));
    drop(corners.take(3));
    corners.close();
}

// The last number of a payload, where there is one.
fn last_number(payload: Result<Fields, AllocError>) -> Option<i64> {
    match payload {
        Ok(fields) => Some(fields.get(7)),
        Err(_) => None,
    }
}

// The last numbers of payloads that are made for a vertex and for a cell.
fn made(scenario: &Scenario, sink: &mut MemSink) -> (Option<i64>, Option<i64>) {
    let mut mapping = Interp::new(scenario, Fields::zero(), sink);
    let of_vertex = mapping.fresh_v();
    let of_cell = mapping.fresh_c();
    let _globals = mapping.globals();
    (last_number(of_vertex), last_number(of_cell))
}

// Fires the plain events, and tells what they answer, and the number of the grid.
fn fire_plain(scenario: &Scenario, sink: &mut MemSink) -> ([Result<(), Stop>; 2], i64) {
    let mut mapping = Interp::new(scenario, Fields::zero(), sink);
    let begun = mapping.plain_event(Event::BeginIteration, 7);
    let ended = mapping.plain_event(Event::EndIteration, 7);
    ([begun, ended], mapping.globals().get(0))
}

// Fires an event of a vertex, and tells what it answers, the vertex's state and number, and the number of the grid.
fn fire_vertex(scenario: &Scenario, sink: &mut MemSink) -> (Result<(), Stop>, State, i64, i64)
    requires { scenario.now.setup.dim ≡ 2 }
{
    let mut mapping = Interp::new(scenario, Fields::zero(), sink);
    let mut vertex = Vertex::new(State::Unrefined, Kind::Kept, Fields::zero());
    let mut parents = square(scenario.setup.dim, [10, 11, 12, 13]);
    let mut parent = CellRec::new(Fields::zero());
    let answer = mapping.vertex_event(
        Event::TouchVertexLastTime,
        1,
        &PLACE,
        &mut vertex,
        &mut parents,
        &mut parent,
    );
    open(parents);
    let sum = mapping.globals().get(0);
    (answer, vertex.state(), vertex.payload().get(0), sum)
}

// Enters a cell and leaves it, and tells what both answer, the cell's number, and the number of the grid.
fn fire_cell(scenario: &Scenario, sink: &mut MemSink) -> ([Result<(), Stop>; 2], i64, i64)
    requires { scenario.now.setup.dim ≡ 2 }
{
    let mut mapping = Interp::new(scenario, Fields::zero(), sink);
    let mut cell = CellRec::new(Fields::zero());
    let mut parent = CellRec::new(Fields::zero());
    let mut corners = square(scenario.setup.dim, [1, 2, 3, 4]);
    let mut parents = square(scenario.setup.dim, [0, 0, 0, 0]);
    let entered = mapping.cell_event(
        Event::EnterCell,
        1,
        &PLACE,
        &mut cell,
        &mut corners,
        &mut parents,
        &mut parent,
    );
    let left = mapping.cell_event(
        Event::LeaveCell,
        1,
        &PLACE,
        &mut cell,
        &mut corners,
        &mut parents,
        &mut parent,
    );
    open(corners);
    open(parents);
    let sum = mapping.globals().get(0);
    ([entered, left], cell.payload().get(0), sum)
}

// Of the cell's events the second is stopped behind its first print by a division by 0.
#[test]
fn what_events_do(rt: HostRuntime) {
    let scenario = read(&rt, rt.alloc());
    let mut sink = MemSink::new(rt.alloc(), 1000, &[]).expect(&rt, "memory");
    let made = made(&scenario, &mut sink);
    assert!(rt; made == (Some(0), Some(0)));
    let plain = fire_plain(&scenario, &mut sink);
    assert!(rt; plain == ([Ok(()), Ok(())], 5));
    let vertex = fire_vertex(&scenario, &mut sink);
    assert!(rt; vertex == (Ok(()), State::RefinementTriggered, 14, 0));
    let cell = fire_cell(&scenario, &mut sink);
    assert!(rt; cell == ([Ok(()), Err(Stop::Division)], 41, 41));
    let text = b"\
        begin_iteration 7\n\
        print 7\n\
        touch_vertex_last_time 1 1 2\n\
        print 1 14 0\n\
        leave_cell 1 1 2\n\
        print -3 1 -3 -1 1 0\n";
    assert!(rt; sink.text() == text.as_slice());
}
