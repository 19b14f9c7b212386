//! Worked rows of grids that change, through the top call.
use crate::rows::{Row, check, check_call, counts, run, run_of, traffic};

// Grids that are whole down to a level, there and back.
const DEEP: &[Row] = &[
    // Two levels in the plane.
    (
        "\
            dim = 2\n\
            traversals = 2\n\
            start_level = 2\n",
        "\
            traversal 1 forward cells 90 in 0 out 68 created 68 destroyed 0 hanging 88\n\
            traversal 2 inverted cells 90 in 68 out 68 created 0 destroyed 0 hanging 88\n\
            done\n",
        0,
    ),
    // Three levels.
    (
        "\
            dim = 2\n\
            traversals = 2\n\
            start_level = 3\n",
        "\
            traversal 1 forward cells 819 in 0 out 744 created 744 destroyed 0 hanging 300\n\
            traversal 2 inverted cells 819 in 744 out 744 created 0 destroyed 0 hanging 300\n\
            done\n",
        0,
    ),
    // Two levels in space.
    (
        "\
            dim = 3\n\
            traversals = 2\n\
            start_level = 2\n",
        "\
            traversal 1 forward cells 756 in 0 out 520 created 520 destroyed 0 hanging 1888\n\
            traversal 2 inverted cells 756 in 520 out 520 created 0 destroyed 0 hanging 1888\n\
            done\n",
        0,
    ),
    // And on four axes.
    (
        "\
            dim = 4\n\
            traversals = 2\n\
            start_level = 2\n",
        "\
            traversal 1 forward cells 6642 in 0 out 4112 created 4112 destroyed 0 hanging 40480\n\
            traversal 2 inverted cells 6642 in 4112 out 4112 created 0 destroyed 0 hanging 40480\n\
            done\n",
        0,
    ),
];

#[test]
fn deep_grids_that_do_not_change(rt: HostRuntime) {
    check(&rt, rt.alloc(), DEEP);
}

// Vertices that are refined, alone and side by side, and no deeper than may be.
const REFINED: &[Row] = &[
    // One.
    (
        "\
            dim = 2\n\
            traversals = 2\n\
            max_level = 5\n\
            \n\
            [events]\n\
            touch_vertex_first_time = \"if t == 1 && level == 1 && x0 == 1 && x1 == 1 { refine v; }\"\n",
        "\
            traversal 1 forward cells 9 in 0 out 4 created 4 destroyed 0 hanging 20\n\
            traversal 2 inverted cells 45 in 4 out 29 created 25 destroyed 0 hanging 64\n\
            done\n",
        0,
    ),
    // Two side by side.
    (
        "\
            dim = 2\n\
            traversals = 2\n\
            max_level = 5\n\
            \n\
            [events]\n\
            touch_vertex_first_time = \"if t == 1 && level == 1 && x1 == 1 { refine v; }\"\n",
        "\
            traversal 1 forward cells 9 in 0 out 4 created 4 destroyed 0 hanging 20\n\
            traversal 2 inverted cells 63 in 4 out 44 created 40 destroyed 0 hanging 76\n\
            done\n",
        0,
    ),
    // Three, within the limit of cells.
    (
        "\
            dim = 2\n\
            traversals = 2\n\
            max_level = 5\n\
            max_cells = 81\n\
            \n\
            [events]\n\
            touch_vertex_first_time = \"if t == 1 && level == 1 && x0 + x1 < 4 { refine v; }\"\n",
        "\
            traversal 1 forward cells 9 in 0 out 4 created 4 destroyed 0 hanging 20\n\
            traversal 2 inverted cells 81 in 4 out 59 created 55 destroyed 0 hanging 88\n\
            done\n",
        0,
    ),
    // None: there is one level alone.
    (
        "\
            dim = 2\n\
            traversals = 2\n\
            max_level = 1\n\
            \n\
            [events]\n\
            touch_vertex_first_time = \"refine v;\"\n",
        "\
            traversal 1 forward cells 9 in 0 out 4 created 4 destroyed 0 hanging 20\n\
            traversal 2 inverted cells 9 in 4 out 4 created 0 destroyed 0 hanging 20\n\
            done\n",
        0,
    ),
];

#[test]
fn refinement(rt: HostRuntime) {
    check(&rt, rt.alloc(), REFINED);
}

// Vertices that are erased again, with all that was refined below them.
const ERASED: &[Row] = &[
    // One.
    (
        "\
            dim = 2\n\
            traversals = 5\n\
            max_level = 5\n\
            \n\
            [events]\n\
            touch_vertex_first_time = \"if t == 1 && level == 1 && x0 == 1 && x1 == 1 { refine v; } if t == 3 && level == 1 && x0 == 1 && x1 == 1 { erase v; }\"\n",
        "\
            traversal 1 forward cells 9 in 0 out 4 created 4 destroyed 0 hanging 20\n\
            traversal 2 inverted cells 45 in 4 out 29 created 25 destroyed 0 hanging 64\n\
            traversal 3 forward cells 45 in 29 out 29 created 0 destroyed 0 hanging 64\n\
            traversal 4 inverted cells 45 in 29 out 4 created 0 destroyed 25 hanging 64\n\
            traversal 5 forward cells 9 in 4 out 4 created 0 destroyed 0 hanging 20\n\
            done\n",
        0,
    ),
    // One with another below it.
    (
        "\
            dim = 2\n\
            traversals = 6\n\
            \n\
            [events]\n\
            touch_vertex_first_time = \"if t == 1 && level == 1 && x0 == 1 && x1 == 1 { refine v; } \
                if t == 2 && level == 2 && x0 == 3 && x1 == 3 { refine v; } \
                if t == 4 && level == 1 && x0 == 1 && x1 == 1 { erase v; }\"\n",
        "\
            traversal 1 forward cells 9 in 0 out 4 created 4 destroyed 0 hanging 20\n\
            traversal 2 inverted cells 45 in 4 out 29 created 25 destroyed 0 hanging 64\n\
            traversal 3 forward cells 81 in 29 out 54 created 25 destroyed 0 hanging 108\n\
            traversal 4 inverted cells 81 in 54 out 54 created 0 destroyed 0 hanging 108\n\
            traversal 5 forward cells 81 in 54 out 4 created 0 destroyed 50 hanging 108\n\
            traversal 6 inverted cells 9 in 4 out 4 created 0 destroyed 0 hanging 20\n\
            done\n",
        0,
    ),
    // A band that moves.
    (
        "\
            dim = 2\n\
            traversals = 12\n\
            max_level = 5\n\
            \n\
            [fields]\n\
            global = [\"line\", \"w\"]\n\
            \n\
            [events]\n\
            begin_iteration = \"if t <= 6 { global.line = 1; } else { global.line = 2; }\"\n\
            touch_vertex_first_time = \"if level == 1 { global.w = 1; } if level == 2 { global.w = 3; } \
                if level == 3 { global.w = 9; } if level == 4 { global.w = 27; } \
                if level == 5 { global.w = 81; } \
                if x0 == global.line * global.w { refine v; } else { erase v; }\"\n",
        "\
            traversal 1 forward cells 9 in 0 out 4 created 4 destroyed 0 hanging 20\n\
            traversal 2 inverted cells 63 in 4 out 44 created 40 destroyed 0 hanging 76\n\
            traversal 3 forward cells 225 in 44 out 174 created 130 destroyed 0 hanging 204\n\
            traversal 4 inverted cells 711 in 174 out 574 created 400 destroyed 0 hanging 548\n\
            traversal 5 forward cells 2169 in 574 out 1784 created 1210 destroyed 0 hanging 1540\n\
            traversal 6 inverted cells 2169 in 1784 out 1784 created 0 destroyed 0 hanging 1540\n\
            traversal 7 forward cells 2169 in 1784 out 1784 created 0 destroyed 0 hanging 1540\n\
            traversal 8 inverted cells 2196 in 1784 out 44 created 24 destroyed 1764 hanging 1552\n\
            traversal 9 forward cells 225 in 44 out 174 created 130 destroyed 0 hanging 204\n\
            traversal 10 inverted cells 711 in 174 out 574 created 400 destroyed 0 hanging 548\n\
            traversal 11 forward cells 2169 in 574 out 1784 created 1210 destroyed 0 hanging 1540\n\
            traversal 12 inverted cells 2169 in 1784 out 1784 created 0 destroyed 0 hanging 1540\n\
            done\n",
        0,
    ),
];

#[test]
fn erasure(rt: HostRuntime) {
    check(&rt, rt.alloc(), ERASED);
}

// Numbers of vertices, of cells and of the whole grid.
const NUMBERS: &[Row] = &[
    // Touches of vertices.
    (
        "\
            dim = 2\n\
            traversals = 1\n\
            \n\
            [fields]\n\
            vertex = [\"u\"]\n\
            \n\
            [events]\n\
            enter_cell = \"v0.u = v0.u + 1; v1.u = v1.u + 1; v2.u = v2.u + 1; v3.u = v3.u + 1;\"\n\
            touch_vertex_last_time = \"print x0, x1, v.u;\"\n",
        "\
            print 1 2 4\n\
            print 1 1 4\n\
            print 2 1 4\n\
            print 2 2 4\n\
            traversal 1 forward cells 9 in 0 out 4 created 4 destroyed 0 hanging 20\n\
            done\n",
        0,
    ),
];

#[test]
fn numbers(rt: HostRuntime) {
    check(&rt, rt.alloc(), NUMBERS);
}

// Traversals that are halted: by an event, and by one cell too many.
const HALTED: &[Row] = &[
    // Overflow.
    (
        "\
            dim = 2\n\
            traversals = 1\n\
            \n\
            [fields]\n\
            global = [\"g\"]\n\
            \n\
            [events]\n\
            begin_iteration = \"global.g = 9223372036854775807;\"\n\
            enter_cell = \"if x0 == 1 && x1 == 1 { global.g = global.g + 1; }\"\n",
        "\
            fault overflow traversal 1 enter_cell 1 1 1\n",
        4,
    ),
    // Division.
    (
        "\
            dim = 2\n\
            traversals = 1\n\
            \n\
            [events]\n\
            begin_iteration = \"print 7 / -2, 7 % -2, -7 / 2, -7 % 2, 2 < 3, !5; print 1 / 0;\"\n",
        "\
            print -3 1 -3 -1 1 0\n\
            fault division traversal 1 begin_iteration\n",
        4,
    ),
    // Cells.
    (
        "\
            dim = 2\n\
            traversals = 2\n\
            max_level = 5\n\
            max_cells = 81\n\
            \n\
            [events]\n\
            touch_vertex_first_time = \"if t == 1 { refine v; }\"\n",
        "\
            traversal 1 forward cells 9 in 0 out 4 created 4 destroyed 0 hanging 20\n\
            fault cells traversal 2 2 2 2\n",
        4,
    ),
    // Cells at the start.
    (
        "\
            dim = 2\n\
            traversals = 2\n\
            max_level = 5\n\
            max_cells = 81\n\
            start_level = 2\n",
        "\
            fault cells traversal 1 2 6 6\n",
        4,
    ),
];

#[test]
fn halts(rt: HostRuntime) {
    check(&rt, rt.alloc(), HALTED);
}

// What the depots have counted after the run with one refined vertex.
const ONE_REFINED: Row = (
    "\
            dim = 2\n\
            traversals = 2\n\
            max_level = 5\n\
            \n\
            [events]\n\
            touch_vertex_first_time = \"if t == 1 && level == 1 && x0 == 1 && x1 == 1 { refine v; }\"\n",
    "\
            traversal 1 forward cells 9 in 0 out 4 created 4 destroyed 0 hanging 20\n\
            traversal 2 inverted cells 45 in 4 out 29 created 25 destroyed 0 hanging 64\n\
            done\n",
    0,
);

#[test]
fn the_traffic_of_one_refined_vertex(rt: HostRuntime) {
    let (scenario, text, status) = ONE_REFINED;
    let call = run_of(scenario.as_bytes());
    let ran = check_call(&rt, rt.alloc(), &call, text, status);
    for (s, passes) in [
        (0, (16, 16)),
        (1, (21, 21)),
        (2, (28, 28)),
        (3, (34, 34)),
        (4, (0, 0)),
        (7, (0, 0)),
        (8, (29, 0)),
        (9, (4, 4)),
    ] {
        assert!(rt; traffic(&ran.vertices, s) == Some(passes), "stack {s}");
    }
    assert!(rt; counts(&ran.vertices) == (10, 121, 121, 12));
    assert!(rt; counts(&ran.cells) == (2, 45, 45, 2));
    let cells = (traffic(&ran.cells, 0), traffic(&ran.cells, 1));
    assert!(rt; cells == (Some((45, 0)), Some((9, 9))));
}

// Two levels at the start, and vertices refined in the second of them. Of the third level, five vertices have all their cells
// and hang: each is made anew for each of them.
const HANGING_AMONG_ALL: &[u8] = b"\
        dim = 2\n\
        traversals = 2\n\
        max_level = 3\n\
        start_level = 2\n\
        trace = [\"create_hanging_vertex\"]\n\
        \n\
        [events]\n\
        touch_vertex_last_time = \"if t == 1 && level == 2 && x1 == 3 && (x0 == 2 || x0 == 4) { refine v; }\"\n";

#[test]
fn vertices_that_hang_among_all_their_cells(rt: HostRuntime) {
    let ran = run(&rt, rt.alloc(), &run_of(HANGING_AMONG_ALL));
    assert!(rt; ran.status == 0);
    for (line, count) in [
        ("create_hanging_vertex 3 9 7\n", 4),
        ("create_hanging_vertex 3 9 8\n", 4),
        ("create_hanging_vertex 3 9 9\n", 4),
        ("create_hanging_vertex 3 9 10\n", 4),
        ("create_hanging_vertex 3 9 11\n", 4),
        (
            "traversal 1 forward cells 90 in 0 out 68 created 68 destroyed 0 hanging 88\n",
            1,
        ),
        (
            "traversal 2 inverted cells 162 in 68 out 118 created 50 destroyed 0 hanging 176\ndone\n",
            1,
        ),
    ] {
        assert!(rt; times(ran.sink.text(), line.as_bytes()) == count, "{line}");
    }
}

// How often a text has a piece.
fn times(text: &[u8], piece: &[u8]) -> usize {
    let mut count = 0;
    for start in 0..text.len() {
        if text[start..].starts_with(piece) && count < text.len() {
            count += 1;
        }
    }
    count
}

// The line of the cell too many stands behind those of as many as may be.
const AS_MANY_CELLS: &[u8] = b"\
        dim = 2\n\
        traversals = 2\n\
        max_level = 5\n\
        max_cells = 81\n\
        start_level = 2\n\
        trace = [\"enter_cell\"]\n";

#[test]
fn as_many_cells_as_may_be(rt: HostRuntime) {
    let ran = run(&rt, rt.alloc(), &run_of(AS_MANY_CELLS));
    let text = ran.sink.text();
    let last = "enter_cell 1 2 2\nfault cells traversal 1 2 6 6\n";
    let told = (
        ran.status,
        times(text, b"enter_cell "),
        text.ends_with(last.as_bytes()),
    );
    assert!(rt; told == (4, 81, true));
}

#[test]
fn a_thousand_traversals(rt: HostRuntime) {
    let ran = run(&rt, rt.alloc(), &run_of(b"dim = 2\ntraversals = 1000\n"));
    let last =
        "traversal 1000 inverted cells 9 in 4 out 4 created 0 destroyed 0 hanging 20\ndone\n";
    assert!(rt; ran.status == 0);
    assert!(rt; ran.sink.text().ends_with(last.as_bytes()));
}
