//! Worked rows: tallies and their lines.
use crate::tally_line;
use pe_base::{Tally, Way};
use pe_io::MemSink;

const FIRST: Tally = Tally {
    traversal: 1,
    way: Way::Forward,
    cells: 9,
    read: 0,
    written: 4,
    created: 4,
    destroyed: 0,
    hanging: 20,
    deepest: 1,
};

const GREATEST: Tally = Tally {
    traversal: u64::MAX,
    way: Way::Inverted,
    cells: u64::MAX,
    read: 1,
    written: 2,
    created: 3,
    destroyed: 4,
    hanging: 5,
    deepest: 20,
};

const ROWS: &[(Tally, &str)] = &[
    (
        FIRST,
        "traversal 1 forward cells 9 in 0 out 4 created 4 destroyed 0 hanging 20\n",
    ),
    (
        GREATEST,
        "traversal 18446744073709551615 inverted cells 18446744073709551615 in 1 out 2 created 3 destroyed 4 hanging 5\n",
    ),
];

#[test]
fn lines(rt: HostRuntime) {
    for (tally, line) in ROWS {
        let mut sink = MemSink::new(rt.alloc(), 256, &[2]).expect(&rt, "memory");
        assert!(rt; tally_line(&mut sink, tally).is_ok());
        assert!(rt; sink.text() == line.as_bytes(), "{line}");
        // The second write fails, and nothing of it stands.
        assert!(rt; tally_line(&mut sink, tally).is_err());
        assert!(rt; sink.text() == line.as_bytes(), "{line}");
    }
}
