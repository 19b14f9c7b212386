//! The line of a tally.
ghost use Rattle.std.specs.Prelude.{◌≡◌, ◌+◌, ◌≤◌, [], ◌∷◌, ◌++◌, length, decimal};
ghost use Rattle.pe_base.specs.Lines.{tally_line, way_name};
ghost use Rattle.pe_base.specs.Calls.Told.{Tells};
ghost use Rattle.pe_io.specs.Sink.{told_by};
ghost use Rattle.pe_io.specs.Line.{HasRoom, HasNoFeed};

use pe_base::{Tally, Way};
use pe_io::{Line, Sink, SinkFailed};

/// Writes the line of a tally, in one piece. Where the sink fails, the first part of the line may stand. It takes no memory.
pub fn tally_line<K: Sink>(sink: &mut K, tally: &Tally) -> Result<(), SinkFailed>
    ensures told { Tells (tally_line tally.now) (told_by K.text K.writes K.faults sink.old) (told_by K.text K.writes K.faults sink.new) result }
{
    tally_words(tally).end(sink)
}

// The line of a tally, without its line feed.
fn tally_words(tally: &Tally) -> Line
    ensures { result ++ 10 ∷ [] ≡ tally_line tally.now }
{
    let mut line = Line::of("traversal");
    line.number(tally.traversal);
    line.part(way_name(tally.way));
    add_count(&mut line, "cells", tally.cells);
    add_count(&mut line, "in", tally.read);
    add_count(&mut line, "out", tally.written);
    add_count(&mut line, "created", tally.created);
    add_count(&mut line, "destroyed", tally.destroyed);
    add_count(&mut line, "hanging", tally.hanging);
    line
}

// A word and a number.
fn add_count(line: &mut Line, word: &str, n: u64)
    requires room { HasRoom line.old (22 + length word.now) }
    requires plain { HasNoFeed word.now }
    ensures text { line.new ≡ line.old ++ 32 ∷ word.now ++ 32 ∷ decimal n }
    ensures length { length line.new ≤ length line.old + 22 + length word.now }
{
    line.part(word);
    line.number(n);
}

// The way's name.
fn way_name(way: Way) -> &'static str
    ensures name { result.now ≡ way_name way }
    ensures short { length result.now ≤ 8 }
    ensures plain { HasNoFeed result.now }
{
    match way {
        Way::Forward => "forward",
        Way::Inverted => "inverted",
    }
}
