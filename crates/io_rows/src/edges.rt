//! The edges over a real file and the standard output, the twins in memory, and calls that stop half-way.
ghost use Rattle.std.specs.Prelude.{◌≤◌, [], ◌∷◌, codes, decimal, IfOk, OnOk};
ghost use Rattle.std.specs.Fmt.{signed_decimal};
ghost use Rattle.pe_base.specs.Lines.{line};
ghost use Rattle.pe_base.specs.Calls.Told.{Appends};

use pe_io::{
    FileShelf, Got, Line, MemShelf, MemSink, PutFault, Shelf, Sink, SinkFailed, StdSink, SureShelf,
    SureSink, read_whole, write_whole,
};
use std::alloc::Global;
use std::io::{Error, ErrorKind, Read, Write};
use std::process::Abort;
use std::{fs, io, process};

/// A caller of `Line`, whose contract is the definition of a line.
fn print_cells<K: Sink>(sink: &mut K, cells: u64, depth: i64) -> Result<(), SinkFailed>
    ensures { OnOk result (Appends (K.text sink.old)
        (line (codes "cells") (decimal cells ∷ codes "at" ∷ signed_decimal depth ∷ [])) (K.text sink.new)) }
{
    let mut line = Line::of("cells");
    line.number(cells);
    line.part("at");
    line.signed(depth);
    line.end(sink)
}

// What a shelf or a reader is to give.
#[derive(Clone, Copy)]
enum Answer<'a> {
    Whole(&'a [u8]),
    Longer,
    Absent,
    Failed,
}

fn is_answered(got: &Got, answer: &Answer) -> bool {
    match answer {
        Answer::Whole(bytes) => matches!(got, Got::Whole(whole) if whole.as_slice() == *bytes),
        Answer::Longer => matches!(got, Got::Longer),
        Answer::Absent => matches!(got, Got::Absent),
        Answer::Failed => matches!(got, Got::Failed),
    }
}

// A call of a shelf, and what it is to answer.
#[derive(Clone, Copy)]
enum Call<'a> {
    Get(u64, Answer<'a>),
    Put(&'a [u8], Result<(), PutFault>),
}

fn is_as_told<H: Shelf>(
    rt: &impl Abort,
    alloc: Global,
    shelf: &mut H,
    name: &str,
    call: &Call,
) -> bool {
    match call {
        Call::Get(limit, answer) => is_answered(&shelf.get(name, *limit), answer),
        Call::Put(bytes, answer) => {
            let bytes = bytes.to_vec(alloc).expect(rt, "memory");
            shelf.put(name, bytes) == *answer
        }
    }
}

// Makes calls in their order, each at a name.
fn check_calls<H: Shelf>(rt: &impl Abort, alloc: Global, shelf: &mut H, calls: &[(&str, Call)]) {
    for (name, call) in calls {
        assert!(rt; is_as_told(rt, alloc, shelf, name, call), "{name}");
    }
}

fn is_held(held: Option<&[u8]>, wanted: &[u8]) -> bool {
    match held {
        Some(bytes) => bytes == wanted,
        None => false,
    }
}

#[test]
fn a_shelf_in_memory(rt: HostRuntime) {
    let alloc = rt.alloc();
    let mut shelf = MemShelf::new(alloc, &[3]).expect(&rt, "memory");
    for (name, text) in [("a", "first"), ("b", ""), ("a", "three")] {
        let added = shelf.add(alloc, name, text.as_bytes());
        added.expect(&rt, "memory");
    }
    check_calls(
        &rt,
        alloc,
        &mut shelf,
        &[
            ("a", Call::Get(5, Answer::Whole(b"three"))),
            ("a", Call::Get(4, Answer::Longer)),
            ("a", Call::Get(5, Answer::Failed)),
            ("b", Call::Get(0, Answer::Whole(b""))),
            ("c", Call::Get(5, Answer::Absent)),
        ],
    );
    assert!(rt; shelf.held("c").is_none() && is_held(shelf.held("a"), b"three"));
}

#[test]
fn puts_in_memory(rt: HostRuntime) {
    let alloc = rt.alloc();
    let mut shelf = MemShelf::new(alloc, &[2, 4]).expect(&rt, "memory");
    shelf.add(alloc, "b", b"stays").expect(&rt, "memory");
    check_calls(
        &rt,
        alloc,
        &mut shelf,
        &[
            ("a", Call::Put(b"first", Ok(()))),
            ("a", Call::Put(b"second", Err(PutFault::Failed))),
        ],
    );
    assert!(rt; is_held(shelf.held("a"), b"first"));
    check_calls(
        &rt,
        alloc,
        &mut shelf,
        &[
            ("a", Call::Put(b"third", Ok(()))),
            ("a", Call::Get(9, Answer::Failed)),
            ("a", Call::Get(9, Answer::Whole(b"third"))),
        ],
    );
    assert!(rt; is_held(shelf.held("b"), b"stays"));
}

#[test]
fn sure_twins(rt: HostRuntime) {
    let alloc = rt.alloc();
    let mut shelf = SureShelf::new(alloc).expect(&rt, "memory");
    shelf.add(alloc, "a", b"first").expect(&rt, "memory");
    check_calls(
        &rt,
        alloc,
        &mut shelf,
        &[
            ("a", Call::Get(4, Answer::Longer)),
            ("b", Call::Put(b"second", Ok(()))),
            ("b", Call::Get(6, Answer::Whole(b"second"))),
            ("c", Call::Get(4, Answer::Absent)),
        ],
    );
    assert!(rt; is_held(shelf.held("a"), b"first"));
    let mut sink = SureSink::new();
    assert!(rt; print_cells(&mut sink, 81, 4) == Ok(()));
}

#[test]
fn a_sink_in_memory(rt: HostRuntime) {
    let mut sink = MemSink::new(rt.alloc(), 56, &[2]).expect(&rt, "memory");
    let answers = [
        print_cells(&mut sink, u64::MAX, i64::MIN),
        print_cells(&mut sink, 9, -1),
        sink.write(b""),
        sink.write(b"too long"),
        sink.write(b"ok\n"),
    ];
    assert!(rt; answers == [Ok(()), Err(SinkFailed), Ok(()), Err(SinkFailed), Ok(())]);
    let text = b"cells 18446744073709551615 at -9223372036854775808\nok\n";
    assert!(rt; sink.text() == text.as_slice());
}

#[test]
fn the_edges(rt: HostRuntime) {
    let alloc = rt.alloc();
    let path = format!(in alloc; "/tmp/pe_io_{}", process::id(rt.process())).expect(&rt, "memory");
    let mut shelf = FileShelf::new(alloc, &rt);
    check_calls(
        &rt,
        alloc,
        &mut shelf,
        &[
            (path.as_str(), Call::Put(b"longer than three", Ok(()))),
            (path.as_str(), Call::Put(b"three", Ok(()))),
            (path.as_str(), Call::Get(5, Answer::Whole(b"three"))),
            (path.as_str(), Call::Get(4, Answer::Longer)),
        ],
    );
    fs::remove_file(&rt, path.as_str()).expect(&rt, "the file");
    check_calls(
        &rt,
        alloc,
        &mut shelf,
        &[
            (path.as_str(), Call::Get(5, Answer::Failed)),
            ("/", Call::Put(b"three", Err(PutFault::Failed))),
        ],
    );
    let mut sink = StdSink::new(io::writer(&rt));
    assert!(rt; print_cells(&mut sink, 81, 4) == Ok(()));
}

/// Reads or writes one byte at a time, is interrupted at the second call, and fails at one call.
#[derive(Drop)]
struct Slow {
    calls: u8,
    fails_at: u8,
    left: usize,
}

impl Slow {
    fn new(fails_at: u8, left: usize) -> Slow {
        Slow {
            calls: 0,
            fails_at,
            left,
        }
    }

    fn step(&mut self, asked: usize) -> io::Result<usize>
        ensures { IfOk result (λ n. n ≤ asked) }
    {
        self.calls = self.calls.saturating_add(1);
        if self.calls == 2 {
            return Err(Error::from(ErrorKind::Interrupted));
        }
        if self.calls == self.fails_at {
            return Err(Error::from(ErrorKind::BrokenPipe));
        }
        let moved = asked.min(self.left).min(1);
        self.left -= moved;
        Ok(moved)
    }
}

impl Read for Slow {
    fn read(&mut self, buf: &mut [u8]) -> io::Result<usize> {
        self.step(buf.len())
    }
}

impl Write for Slow {
    fn write(&mut self, buf: &[u8]) -> io::Result<usize> {
        self.step(buf.len())
    }

    fn flush(&mut self) -> io::Result<()> {
        Ok(())
    }
}

/// The kind of an error, if there is one.
fn kind_of<T>(answer: &io::Result<T>) -> Option<ErrorKind> {
    match answer {
        Ok(_) => None,
        Err(e) => Some(e.kind()),
    }
}

fn read_slowly(alloc: Global, fails_at: u8, left: usize, limit: u64) -> io::Result<Got> {
    read_whole(alloc, &mut Slow::new(fails_at, left), limit)
}

#[test]
fn a_read_that_stops(rt: HostRuntime) {
    for (left, limit, answer) in [
        (3, 3, Answer::Whole(&[0, 0, 0])),
        (0, 3, Answer::Whole(&[])),
        (3, 2, Answer::Longer),
    ] {
        let got = read_slowly(rt.alloc(), 9, left, limit).expect(&rt, "bytes");
        assert!(rt; is_answered(&got, &answer), "{left} {limit}");
    }
    let stopped = read_slowly(rt.alloc(), 4, 3, 3);
    assert!(rt; kind_of(&stopped) == Some(ErrorKind::BrokenPipe));
}

fn write_slowly(fails_at: u8, left: usize) -> Option<ErrorKind> {
    kind_of(&write_whole(&mut Slow::new(fails_at, left), b"abc"))
}

#[test]
fn a_write_that_stops(rt: HostRuntime) {
    let kinds = [write_slowly(9, 3), write_slowly(9, 2), write_slowly(4, 3)];
    assert!(rt;
        kinds
            == [
                None,
                Some(ErrorKind::WriteZero),
                Some(ErrorKind::BrokenPipe)
            ]
    );
    let mut sink = StdSink::new(Slow::new(9, 3));
    let answers = [sink.write(b"abc"), sink.write(b"d"), sink.write(b"")];
    assert!(rt; answers == [Ok(()), Err(SinkFailed), Ok(())]);
}
