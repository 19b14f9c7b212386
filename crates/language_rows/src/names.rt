//! The rows of docs/LANGUAGE.md on names: what each event sees, and which name is refused where.
ghost use Rattle.std.specs.Prelude.{◌≤◌, length};

use pe_base::{Dim, Event, List, Names, Text};
use pe_check::{CheckFault, check};
use pe_lex::lex;
use pe_parse::{Body, parse};
use std::alloc::Global;
use std::process::Abort;

const PLAIN: Event = Event::BeginIteration;

const VERTEX: Event = Event::TouchVertexFirstTime;

const CELL: Event = Event::EnterCell;

fn text(rt: &impl Abort, alloc: Global, word: &str) -> Text {
    Text::new(String::from_str(alloc, word).expect(rt, "memory"))
}

// One name of a field, and those that are spelled like first words.
fn fields(rt: &impl Abort, alloc: Global, own: &str) -> List<Text>
    ensures { length result ≤ 8 }
{
    let names = vec![in alloc;
        text(rt, alloc, own),
        text(rt, alloc, "t"),
        text(rt, alloc, "v"),
        text(rt, alloc, "cell"),
        text(rt, alloc, "x0"),
    ];
    List::new(names.expect(rt, "memory"))
}

/// The names of the fields of all rows.
pub(crate) fn names(rt: &impl Abort, alloc: Global) -> Names {
    Names {
        vertex: fields(rt, alloc, "u"),
        cell: fields(rt, alloc, "c"),
        global: fields(rt, alloc, "sum"),
    }
}

/// The body that a text spells.
pub(crate) fn tree_of(rt: &impl Abort, alloc: Global, text: &str) -> Body {
    let tokens = lex(alloc, text).expect(rt, "tokens");
    parse(alloc, text, tokens.as_slice()).expect(rt, "a body")
}

// The fault of a body at an event of a grid of two axes, or `None` where each of its names is resolved.
fn fault_of_text(rt: &impl Abort, alloc: Global, event: Event, text: &str) -> Option<CheckFault> {
    let plane = Dim::new(2).expect(rt, "a dimension");
    let body = tree_of(rt, alloc, text);
    check(alloc, body, event, &names(rt, alloc), plane).err()
}

const ROWS: &[(Event, &str, Option<CheckFault>)] = &[
    (PLAIN, "t = 1;", Some(CheckFault::ReadOnly { at: 0 })),
    (PLAIN, "print v.u;", Some(CheckFault::NotHere { at: 6 })),
    (PLAIN, "refine v;", Some(CheckFault::NotHere { at: 7 })),
    (PLAIN, "print x0;", Some(CheckFault::NotHere { at: 6 })),
    (CELL, "print v99.u;", Some(CheckFault::Corner { at: 6 })),
    (VERTEX, "print v99.u;", Some(CheckFault::NotHere { at: 6 })),
    (CELL, "print v4.nope;", Some(CheckFault::Corner { at: 6 })),
    (
        CELL,
        "print v3.nope;",
        Some(CheckFault::UnknownName { at: 6 }),
    ),
    (
        CELL,
        "print v0.nope;",
        Some(CheckFault::UnknownName { at: 6 }),
    ),
    (CELL, "v0.state = 3;", Some(CheckFault::ReadOnly { at: 0 })),
    (VERTEX, "level = 1;", Some(CheckFault::ReadOnly { at: 0 })),
    (
        CELL,
        "if 0 { print 1; } else { cell.u = 1; }",
        Some(CheckFault::UnknownName { at: 25 }),
    ),
    // All that an event sees.
    (
        PLAIN,
        "global.t = global.v + global.cell + global.x0 + t;",
        None,
    ),
    (
        VERTEX,
        "v.t = v.v + v.cell + v.x0 + parent.cell + p3.u; refine v; erase p0;",
        None,
    ),
    (
        CELL,
        "cell.cell = v0.t + v3.state + parent.t + x1 + level; refine v0; erase p3;",
        None,
    ),
];

fn check_row(rt: &impl Abort, alloc: Global, event: Event, text: &str, wanted: Option<CheckFault>) {
    let fault = fault_of_text(rt, alloc, event, text);
    assert!(rt; fault == wanted, "{fault:?} of {text} at {event:?}");
}

#[test]
fn names_and_their_faults(rt: HostRuntime) {
    for (event, text, wanted) in ROWS {
        check_row(&rt, rt.alloc(), *event, text, *wanted);
    }
}

const UNKNOWN: &[(&str, u64)] = &[
    ("refine t;", 7),
    ("print x2;", 6),
    ("print v00.u;", 6),
    ("print t.u;", 6),
    ("print u;", 6),
];

#[test]
fn unknown_at_every_event(rt: HostRuntime) {
    for event in Event::ALL {
        for (text, at) in UNKNOWN {
            let wanted = Some(CheckFault::UnknownName { at: *at });
            check_row(&rt, rt.alloc(), event, text, wanted);
        }
    }
}
