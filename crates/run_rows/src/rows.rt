//! Worked rows: what words and contents write and answer, over a shelf and a sink in memory.
use pe_base::Fields;
use pe_io::{MemShelf, MemSink, SureShelf, SureSink};
use pe_run::peano;
use pe_stacks::{CellRec, Depot, VecDepot, Vertex};
use std::alloc::Global;
use std::process::Abort;

const PLAIN: &[u8] = b"dim = 2\ntraversals = 1\ntrace = [\"enter_cell\"]\n";

const TWICE: &[u8] =
    b"dim = 2\ntraversals = 2\ntrace = [\"enter_cell\", \"end_iteration\", \"create_cell\"]\n";

const PLAIN_TEXT: &str = "\
    enter_cell 1 0 0\n\
    enter_cell 1 0 1\n\
    enter_cell 1 0 2\n\
    enter_cell 1 1 2\n\
    enter_cell 1 1 1\n\
    enter_cell 1 1 0\n\
    enter_cell 1 2 0\n\
    enter_cell 1 2 1\n\
    enter_cell 1 2 2\n\
    traversal 1 forward cells 9 in 0 out 4 created 4 destroyed 0 hanging 20\n\
    done\n";

// The first traversal creates the cells that it enters, and the second enters them in reversed order.
const TWICE_TEXT: &str = "\
    create_cell 1 0 0\n\
    enter_cell 1 0 0\n\
    create_cell 1 0 1\n\
    enter_cell 1 0 1\n\
    create_cell 1 0 2\n\
    enter_cell 1 0 2\n\
    create_cell 1 1 2\n\
    enter_cell 1 1 2\n\
    create_cell 1 1 1\n\
    enter_cell 1 1 1\n\
    create_cell 1 1 0\n\
    enter_cell 1 1 0\n\
    create_cell 1 2 0\n\
    enter_cell 1 2 0\n\
    create_cell 1 2 1\n\
    enter_cell 1 2 1\n\
    create_cell 1 2 2\n\
    enter_cell 1 2 2\n\
    end_iteration 1\n\
    traversal 1 forward cells 9 in 0 out 4 created 4 destroyed 0 hanging 20\n\
    enter_cell 1 2 2\n\
    enter_cell 1 2 1\n\
    enter_cell 1 2 0\n\
    enter_cell 1 1 0\n\
    enter_cell 1 1 1\n\
    enter_cell 1 1 2\n\
    enter_cell 1 0 2\n\
    enter_cell 1 0 1\n\
    enter_cell 1 0 0\n\
    end_iteration 2\n\
    traversal 2 inverted cells 9 in 4 out 4 created 0 destroyed 0 hanging 20\n\
    done\n";

const HANGING: &str = "\
    create_hanging_vertex 1 0 1\n\
    create_hanging_vertex 1 1 0\n\
    create_hanging_vertex 1 0 0\n";

const TALLIED: &str = "\
    traversal 1 forward cells 9 in 0 out 4 created 4 destroyed 0 hanging 20\n\
    done\n";

/// One call: the words, what the shelf holds under `S`, and the numbers of the edges' calls that fail.
#[derive(Clone, Copy)]
pub(crate) struct Call<'a> {
    words: &'static [&'static str],
    scenario: Option<&'a [u8]>,
    shelf_fails: &'static [u64],
    sink_fails: &'static [u64],
}

const RUN: &[&str] = &["run", "S"];

/// The call of the words `run S` in which nothing fails.
pub(crate) fn run_of(scenario: &[u8]) -> Call<'_> {
    Call {
        words: RUN,
        scenario: Some(scenario),
        shelf_fails: &[],
        sink_fails: &[],
    }
}

/// A scenario that is run, with nothing that fails; the text, and the status.
pub(crate) type Row = (&'static str, &'static str, u8);

fn words_of(rt: &impl Abort, alloc: Global, words: &[&str]) -> Vec<String> {
    let mut all = Vec::new(alloc);
    for word in words {
        let word = word.to_string(alloc).expect(rt, "memory");
        all.push(word).expect(rt, "memory");
    }
    all
}

/// What came of a run: the status, the text, and ten stacks of vertices and two of cells.
#[derive(Drop)]
pub(crate) struct Ran {
    pub status: u8,
    pub sink: MemSink,
    pub vertices: VecDepot<Vertex<Fields>>,
    pub cells: VecDepot<CellRec<Fields>>,
}

/// Runs.
pub(crate) fn run(rt: &impl Abort, alloc: Global, call: &Call) -> Ran {
    let mut shelf = MemShelf::new(alloc, call.shelf_fails).expect(rt, "memory");
    if let Some(scenario) = call.scenario {
        shelf.add(alloc, "S", scenario).expect(rt, "memory");
    }
    let mut sink = MemSink::new(alloc, 131_072, call.sink_fails).expect(rt, "memory");
    let words = words_of(rt, alloc, call.words);
    let mut vertices = VecDepot::new(alloc, 10).expect(rt, "memory");
    let mut cells = VecDepot::new(alloc, 2).expect(rt, "memory");
    let status = peano(
        alloc,
        words.as_slice(),
        &mut shelf,
        &mut sink,
        &mut vertices,
        &mut cells,
    );
    Ran {
        status,
        sink,
        vertices,
        cells,
    }
}

// Whether nothing lies on a stack, nothing is out, and all that was lent was given up.
fn is_settled<R: Drop>(depot: &VecDepot<R>) -> bool {
    let mut held = 0u64;
    for s in 0..depot.stacks() {
        held = held.saturating_add(depot.len(s));
    }
    (held, depot.out(), depot.fresh()) == (0, 0, depot.spent())
}

/// Runs, and compares what comes of it. Whatever comes of it, the depots are settled.
pub(crate) fn check_call(
    rt: &impl Abort,
    alloc: Global,
    call: &Call,
    text: &str,
    status: u8,
) -> Ran {
    let ran = run(rt, alloc, call);
    let told = (ran.sink.text(), ran.status);
    assert!(rt;
        told == (text.as_bytes(), status),
        "{} in place of: {text}",
        ran.status
    );
    assert!(rt;
        is_settled(&ran.vertices) && is_settled(&ran.cells),
        "{text}"
    );
    ran
}

/// Runs rows, and compares.
pub(crate) fn check(rt: &impl Abort, alloc: Global, rows: &[Row]) {
    for (scenario, text, status) in rows {
        let call = run_of(scenario.as_bytes());
        let _ran = check_call(rt, alloc, &call, text, *status);
    }
}

/// How many stacks a depot has, how many records it lent and took back, and how many were out at most.
pub(crate) fn counts<R: Drop>(depot: &VecDepot<R>) -> (u8, u64, u64, u64) {
    (depot.stacks(), depot.fresh(), depot.spent(), depot.most())
}

/// The pushes and pops of a stack, if there is one of that number.
pub(crate) fn traffic<R: Drop>(depot: &VecDepot<R>, s: u8) -> Option<(u64, u64)> {
    if s < depot.stacks() {
        Some((depot.pushes(s), depot.pops(s)))
    } else {
        None
    }
}

const CALLS: &[(Call<'static>, &str, u8)] = &[
    (
        Call {
            words: RUN,
            scenario: Some(PLAIN),
            shelf_fails: &[],
            sink_fails: &[],
        },
        PLAIN_TEXT,
        0,
    ),
    (
        Call {
            words: RUN,
            scenario: Some(TWICE),
            shelf_fails: &[],
            sink_fails: &[],
        },
        TWICE_TEXT,
        0,
    ),
    (
        Call {
            words: RUN,
            scenario: None,
            shelf_fails: &[],
            sink_fails: &[],
        },
        "fault shelf scenario\n",
        6,
    ),
    (
        Call {
            words: RUN,
            scenario: Some(PLAIN),
            shelf_fails: &[1],
            sink_fails: &[],
        },
        "fault shelf scenario\n",
        6,
    ),
    (
        Call {
            words: RUN,
            scenario: Some(PLAIN),
            shelf_fails: &[],
            sink_fails: &[3],
        },
        "enter_cell 1 0 0\nenter_cell 1 0 1\n",
        7,
    ),
    (
        Call {
            words: RUN,
            scenario: Some(PLAIN),
            shelf_fails: &[1],
            sink_fails: &[1],
        },
        "",
        7,
    ),
];

#[test]
fn runs_and_interruptions(rt: HostRuntime) {
    for (call, text, status) in CALLS {
        let _ran = check_call(&rt, rt.alloc(), call, text, *status);
    }
}

const NO_JOBS: &[&[&str]] = &[
    &[],
    &["run"],
    &["run", "S", "--wat"],
    &["run", "S", "--save"],
    &["walk", "S"],
    &["run", ""],
    &["run", "-S"],
];

#[test]
fn words_that_name_no_job(rt: HostRuntime) {
    for words in NO_JOBS {
        let call = Call {
            words,
            ..run_of(PLAIN)
        };
        let _ran = check_call(&rt, rt.alloc(), &call, "fault words\n", 2);
    }
}

const MORE_AXES: &[Row] = &[
    (
        "dim = 3\ntraversals = 1\n",
        "\
            traversal 1 forward cells 27 in 0 out 8 created 8 destroyed 0 hanging 152\n\
            done\n",
        0,
    ),
    (
        "dim = 4\ntraversals = 3\n",
        "\
            traversal 1 forward cells 81 in 0 out 16 created 16 destroyed 0 hanging 1040\n\
            traversal 2 inverted cells 81 in 16 out 16 created 0 destroyed 0 hanging 1040\n\
            traversal 3 forward cells 81 in 16 out 16 created 0 destroyed 0 hanging 1040\n\
            done\n",
        0,
    ),
];

#[test]
fn more_axes(rt: HostRuntime) {
    check(&rt, rt.alloc(), MORE_AXES);
}

// Vertices are touched in the order of the cells around them, and none dies.
const VERTEX_EVENTS: &[Row] = &[
    (
        "dim = 2\ntraversals = 2\ntrace = [\"create_inner_vertex\", \"destroy_vertex\"]\n",
        "\
            create_inner_vertex 1 1 1\n\
            create_inner_vertex 1 1 2\n\
            create_inner_vertex 1 2 2\n\
            create_inner_vertex 1 2 1\n\
            traversal 1 forward cells 9 in 0 out 4 created 4 destroyed 0 hanging 20\n\
            traversal 2 inverted cells 9 in 4 out 4 created 0 destroyed 0 hanging 20\n\
            done\n",
        0,
    ),
    (
        "dim = 2\ntraversals = 2\ntrace = [\"touch_vertex_first_time\", \"touch_vertex_last_time\"]\n",
        "\
            touch_vertex_first_time 1 1 1\n\
            touch_vertex_first_time 1 1 2\n\
            touch_vertex_first_time 1 2 2\n\
            touch_vertex_first_time 1 2 1\n\
            touch_vertex_last_time 1 1 2\n\
            touch_vertex_last_time 1 1 1\n\
            touch_vertex_last_time 1 2 1\n\
            touch_vertex_last_time 1 2 2\n\
            traversal 1 forward cells 9 in 0 out 4 created 4 destroyed 0 hanging 20\n\
            touch_vertex_first_time 1 2 2\n\
            touch_vertex_first_time 1 2 1\n\
            touch_vertex_first_time 1 1 1\n\
            touch_vertex_first_time 1 1 2\n\
            touch_vertex_last_time 1 2 1\n\
            touch_vertex_last_time 1 2 2\n\
            touch_vertex_last_time 1 1 2\n\
            touch_vertex_last_time 1 1 1\n\
            traversal 2 inverted cells 9 in 4 out 4 created 0 destroyed 0 hanging 20\n\
            done\n",
        0,
    ),
];

#[test]
fn vertex_events(rt: HostRuntime) {
    check(&rt, rt.alloc(), VERTEX_EVENTS);
}

// One row for each cause; where a scenario is refused for several, the first one is told.
const REFUSED: &[(&str, &str)] = &[
    (
        "dim = 2\ntraversals = 1\ncolour = 1\n",
        "fault scenario unknown-key colour\n",
    ),
    (
        "dim = 2\ntraversals = 1\n'a b' = 1\n",
        "fault scenario unknown-key a?b\n",
    ),
    (
        "dim = 2\ntraversals = 1\nmax_cells = '81'\n",
        "fault scenario shape max_cells\n",
    ),
    (
        "dim = 2\ntraversals = 1\nmax_cells = 80\n",
        "fault scenario range max_cells\n",
    ),
    (
        "dim = 2\ntraversals = 1\nmax_level = 1 \n start_level = 2\n",
        "fault scenario range start_level\n",
    ),
    (
        "dim = 2\ntraversals = 1\ntrace = ['enter']\n",
        "fault scenario name trace\n",
    ),
    (
        "dim = 2\ntraversals = 1\nevents.enter_cell = 1\n",
        "fault scenario shape events.enter_cell\n",
    ),
    (
        "dim = 2\ntraversals = 1\nfields.vertex = ['state']\n",
        "fault scenario name fields.vertex\n",
    ),
    (
        "dim = 2\ntraversals = 1\nevents.enter = ''\n",
        "fault scenario unknown-key events.enter\n",
    ),
    (
        "dim = 2\ntraversals = 1\nfields.vertex = ['u'] \n events.enter_cell = 'v4.u = 1;'\n",
        "fault scenario body enter_cell 0 corner\n",
    ),
    (
        "dim = 2\ntraversals = 1\nevents.enter_cell = 'print 1 & 2;'\n",
        "fault scenario body enter_cell 8 character\n",
    ),
    (
        "dim = 2\ntraversals = 1\nevents.enter_cell = 'print 1 +;'\n",
        "fault scenario body enter_cell 9 syntax\n",
    ),
    (
        "dim = 2\ntraversals = 1\nevents.enter_cell = 'print (((((((((((((((((((((((((((((((((((((((((((((((((((((((((((((((((1)))))))))))))))))))))))))))))))))))))))))))))))))))))))))))))))));'\n",
        "fault scenario body enter_cell 70 too-deep\n",
    ),
    (
        "dim = 2\ntraversals = 1\nevents.enter_cell = 'print 1,1,1,1,1,1,1,1,1;'\n",
        "fault scenario body enter_cell 21 too-many\n",
    ),
    (
        "dim = 2\ntraversals = 1\nevents.enter_cell = 'print 9223372036854775808;'\n",
        "fault scenario body enter_cell 6 literal\n",
    ),
    (
        "dim = 2\ntraversals = 1\nevents.enter_cell = 'print u;'\n",
        "fault scenario body enter_cell 6 unknown-name\n",
    ),
    (
        "dim = 2\ntraversals = 1\nevents.begin_iteration = 'print v.u;'\n",
        "fault scenario body begin_iteration 6 not-here\n",
    ),
    (
        "dim = 2\ntraversals = 1\nevents.begin_iteration = 't = 1;'\n",
        "fault scenario body begin_iteration 0 read-only\n",
    ),
    ("", "fault scenario missing dim\n"),
    ("dim = '2'\n", "fault scenario shape dim\n"),
    ("dim = 5\ntraversals = 1\n", "fault scenario range dim\n"),
    (
        "dim = 2\ntraversals = 0\n",
        "fault scenario range traversals\n",
    ),
    (
        "dim = 2\ntraversals = 1001\n",
        "fault scenario range traversals\n",
    ),
    ("dim = \n", "fault scenario not-toml\n"),
];

#[test]
fn scenarios_that_are_refused(rt: HostRuntime) {
    for (scenario, text) in REFUSED {
        let call = run_of(scenario.as_bytes());
        let _ran = check_call(&rt, rt.alloc(), &call, text, 3);
    }
    let text = "fault scenario not-toml\n";
    let _ran = check_call(&rt, rt.alloc(), &run_of(b"\xff"), text, 3);
}

// As deep as a body may nest.
const NESTED: Row = (
    "dim = 2\ntraversals = 1\nevents.begin_iteration = 'print ((((((((((((((((((((((((((((((((((((((((((((((((((((((((((((((((1))))))))))))))))))))))))))))))))))))))))))))))))))))))))))))))));'\n",
    "\
        print 1\n\
        traversal 1 forward cells 9 in 0 out 4 created 4 destroyed 0 hanging 20\n\
        done\n",
    0,
);

#[test]
fn a_body_of_64_nestings(rt: HostRuntime) {
    check(&rt, rt.alloc(), &[NESTED]);
}

#[test]
fn a_scenario_that_is_too_long(rt: HostRuntime) {
    let alloc = rt.alloc();
    for (length, text, status) in [
        (1_048_576, TALLIED, 0),
        (1_048_577, "fault scenario too-long\n", 3),
    ] {
        let mut scenario = Vec::from_slice(alloc, b"dim = 2\ntraversals = 1\n#").expect(
            &rt, "memory",
        );
        scenario.resize(length, b'-').expect(&rt, "memory");
        let _ran = check_call(&rt, alloc, &run_of(&scenario), text, status);
    }
}

const FIRST_HANGING: &[u8] = b"dim = 2\ntraversals = 1\ntrace = [\"create_hanging_vertex\"]\n";

#[test]
fn the_first_hanging_vertices(rt: HostRuntime) {
    let ran = run(&rt, rt.alloc(), &run_of(FIRST_HANGING));
    assert!(rt; ran.status == 0);
    assert!(rt; ran.sink.text().starts_with(HANGING.as_bytes()));
}

#[test]
fn the_traffic_of_one_traversal(rt: HostRuntime) {
    let ran = check_call(&rt, rt.alloc(), &run_of(PLAIN), PLAIN_TEXT, 0);
    for (s, passes) in [
        (0, (2, 2)),
        (1, (2, 2)),
        (2, (4, 4)),
        (3, (4, 4)),
        (4, (0, 0)),
        (8, (0, 0)),
        (9, (4, 0)),
    ] {
        assert!(rt; traffic(&ran.vertices, s) == Some(passes), "stack {s}");
    }
    assert!(rt; counts(&ran.vertices) == (10, 28, 28, 8));
    assert!(rt; counts(&ran.cells) == (2, 9, 9, 1));
    assert!(rt; traffic(&ran.cells, 1) == Some((9, 0)));
}

#[test]
fn edges_that_never_fail(rt: HostRuntime) {
    let alloc = rt.alloc();
    let mut shelf = SureShelf::new(alloc).expect(&rt, "memory");
    shelf.add(alloc, "S", PLAIN).expect(&rt, "memory");
    let mut sink = SureSink::new();
    let words = words_of(&rt, alloc, RUN);
    let mut vertices: VecDepot<Vertex<Fields>> = VecDepot::new(alloc, 10).expect(&rt, "memory");
    let mut cells: VecDepot<CellRec<Fields>> = VecDepot::new(alloc, 2).expect(&rt, "memory");
    let status = peano(
        alloc,
        words.as_slice(),
        &mut shelf,
        &mut sink,
        &mut vertices,
        &mut cells,
    );
    assert!(rt; status == 0);
}
