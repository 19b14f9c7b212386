//! Worked rows: words, and the scenario of the job that they name.
use crate::{Job, WordsFault, read_words};
use std::alloc::Global;
use std::process::Abort;

const ROWS: &[(&[&str], Option<&str>)] = &[
    (&["run", "S"], Some("S")),
    (&["run", "examples/plain.toml"], Some("examples/plain.toml")),
    (&["run", "a name=with spaces"], Some("a name=with spaces")),
    // Two hyphens end the options.
    (&["run", "--", "S"], Some("S")),
    (&["run", "S", "--"], Some("S")),
    (&["run", "--", "S", "--"], None),
    (&["run", "--", "--"], None),
    // No job, or another one.
    (&[], None),
    (&[""], None),
    (&["walk", "S"], None),
    (&["running", "S"], None),
    (&["S", "run"], None),
    (&["--", "run", "S"], None),
    // No scenario, an empty name, or two scenarios.
    (&["run"], None),
    (&["run", "--"], None),
    (&["run", ""], None),
    (&["run", "S", "T"], None),
    (&["run", "S", "S"], None),
    (&["run", "S", ""], None),
    // Options.
    (&["run", "S", "--wat"], None),
    (&["run", "--grid", "S"], None),
    (&["run", "S", "--save"], None),
    (&["run", "S", "--save=T"], None),
    (&["run", "--scenario", "S"], None),
    (&["run", "-S"], None),
    (&["run", "S", "-v"], None),
    (&["run", "--help"], None),
    (&["run", "S", "-h"], None),
    (&["run", "--version"], None),
    (&["run", "help"], Some("help")),
    // Names that begin with a hyphen, and are no options.
    (&["run", "-"], None),
    (&["run", "--", "-S"], None),
];

fn words_of(rt: &impl Abort, alloc: Global, words: &[&str]) -> Vec<String> {
    let mut all = Vec::new(alloc);
    for word in words {
        let word = word.to_string(alloc).expect(rt, "memory");
        all.push(word).expect(rt, "memory");
    }
    all
}

#[test]
fn jobs(rt: HostRuntime) {
    for (words, scenario) in ROWS {
        let all = words_of(&rt, rt.alloc(), words);
        let read = read_words(rt.alloc(), all.as_slice());
        let found = match &read {
            Ok(Job::Run { scenario }) => Ok(scenario.as_str()),
            Err(fault) => Err(*fault),
        };
        assert!(rt;
            found == scenario.ok_or(WordsFault::NoJob),
            "{words:?} give {found:?}"
        );
    }
}
