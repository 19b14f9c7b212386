//! The rows of docs/LANGUAGE.md on meaning: what a body writes, and with what it ends.
use crate::names::{names, tree_of};
use pe_base::{Dim, Event, Fields, Stop};
use pe_check::{check, fits_widen};
use pe_eval::{View, eval};
use pe_io::MemSink;
use std::alloc::Global;
use std::process::Abort;

// What a body came to at a plain event of the first traversal.
#[derive(Drop)]
struct Ran {
    sink: MemSink,
    answer: Result<(), Stop>,
}

fn run_text(rt: &impl Abort, alloc: Global, text: &str) -> Ran {
    let plane = Dim::new(2).expect(rt, "a dimension");
    let names = names(rt, alloc);
    let tree = tree_of(rt, alloc, text);
    let body = match check(alloc, tree, Event::BeginIteration, &names, plane) {
        Ok(body) => body,
        Err(fault) => panic!(rt; "{fault:?} of {text}"),
    };
    let mut sink = MemSink::new(alloc, 1000, &[]).expect(rt, "memory");
    let mut globals = Fields::zero();
    let mut view = View::Plain {
        t: 1,
        globals: &mut globals,
    };
    // What was checked fits where eight numbers of each kind are lent.
    fits_widen();
    let answer = eval(&body, &mut view, &mut sink);
    Ran { sink, answer }
}

const ROWS: &[(&str, &str, Result<(), Stop>)] = &[
    (
        "print 2 && 0, 0 || 7, min(3, -4), abs(-5);",
        "print 0 1 -4 5\n",
        Ok(()),
    ),
    (
        "print -9223372036854775807 - 1;",
        "print -9223372036854775808\n",
        Ok(()),
    ),
    ("print 0 && 1 / 0, 3 || 1 / 0;", "print 0 1\n", Ok(())),
    ("print -7 / 2, -7 % 2, 7 % -2;", "print -3 -1 1\n", Ok(())),
    (
        "print !5, !0, - -3, 2 > 1, 7 - 4 - 2;",
        "print 0 1 3 1 1\n",
        Ok(()),
    ),
    (
        "global.sum = t + 4; if global.sum > 4 { print global.sum; } else { print 0; }",
        "print 5\n",
        Ok(()),
    ),
    ("if 0 { print 1; } if -1 { print 2; }", "print 2\n", Ok(())),
    // Bodies that are stopped.
    (
        "print 1; print -9223372036854775807 - 2;",
        "print 1\n",
        Err(Stop::Overflow),
    ),
    (
        "print (-9223372036854775807 - 1) / -1;",
        "",
        Err(Stop::Overflow),
    ),
    (
        "print (-9223372036854775807 - 1) % -1;",
        "",
        Err(Stop::Overflow),
    ),
    (
        "print 9223372036854775807 + 1 + 1 / 0;",
        "",
        Err(Stop::Overflow),
    ),
    ("print 1, 1 / 0; print 2;", "", Err(Stop::Division)),
    (
        "print 7 / 2; print 7 / 0, 1;",
        "print 3\n",
        Err(Stop::Division),
    ),
    (
        "print 7 / -2, 7 % -2, -7 / 2, -7 % 2, 2 < 3, !5; print 1 / 0;",
        "print -3 1 -3 -1 1 0\n",
        Err(Stop::Division),
    ),
    (
        "print min(1 % 0, 9223372036854775807 * 2);",
        "",
        Err(Stop::Division),
    ),
];

#[test]
fn what_bodies_write(rt: HostRuntime) {
    for (text, lines, answer) in ROWS {
        let ran = run_text(&rt, rt.alloc(), text);
        let told = (ran.sink.text(), ran.answer);
        assert!(rt;
            told == (lines.as_bytes(), *answer),
            "{:?} of {text}",
            ran.answer
        );
    }
}
