ghost use Rattle.std.specs.Prelude.{◌≡◌, ◌+◌, ◌≤◌, [], ◌∷◌, ◌++◌, map, length, decimal};
ghost use Rattle.std.specs.List.{flat_map};
ghost use Rattle.std.specs.Fmt.{signed_decimal};
ghost use Rattle.pe_base.specs.Lines.{shown_byte, shown_key, place_parts};
ghost use Rattle.pe_base.specs.Calls.Counters.{CountsOne};
ghost use Rattle.pe_base.specs.Calls.Told.{Tells};
ghost use Rattle.pe_io.specs.Sink.{told_by};
ghost use Rattle.pe_io.specs.Line.{HasRoom, HasNoFeed};

use crate::sink::{Sink, SinkFailed};
use arrayvec::ArrayVec;
use itoa::Buffer;
use pe_base::{Dim, Place};
use std::marker::Model;

/// The bytes of the longest line, with its line feed.
const LINE_ROOM: usize = 320;

/// How many bytes of a key are shown.
const SHOWN_BYTES: usize = 64;

/// A line that is being built, part by part, without its line feed. No part has one, so the line ends where it is
/// ended. Takes no memory.
#[derive(Drop)]
pub struct Line {
    bytes: ArrayVec<u8, LINE_ROOM>,
}

impl Model for Line {
    ghost use Rattle.std.specs.Prelude.{ℕ, ◌<◌, List, length};
    ghost use Rattle.pe_io.specs.Line.{HasNoFeed};

    ghost Value = { List ℕ };

    ghost view = { λ line. line.bytes.items };

    ghost invariant = { λ line. (length line.bytes.items < 320) × HasNoFeed line.bytes.items };
}

impl Line {
    /// A line of one word.
    pub fn of(word: &str) -> Line
        requires room { HasRoom [] (length word.now) }
        requires plain { HasNoFeed word.now }
        ensures { result ≡ word.now }
    {
        let mut bytes = ArrayVec::new();
        add(&mut bytes, word.as_bytes());
        Line { bytes }
    }

    /// Adds a part behind one space.
    pub fn part(&mut self, part: &str)
        requires room { HasRoom self.old (1 + length part.now) }
        requires plain { HasNoFeed part.now }
        ensures part { self.new ≡ self.old ++ 32 ∷ part.now }
        ensures length { length self.new ≡ length self.old + 1 + length part.now }
    {
        self.bytes.push(b' ');
        add(&mut self.bytes, part.as_bytes());
    }

    /// Adds a number behind one space. It has at most 20 digits.
    pub fn number(&mut self, n: u64)
        requires { HasRoom self.old 21 }
        ensures number { self.new ≡ self.old ++ 32 ∷ decimal n }
        ensures length { length self.new ≤ length self.old + 21 }
    {
        let mut digits = Buffer::new();
        self.part(digits.format(n));
    }

    /// Adds a signed number behind one space. It has at most 20 bytes.
    pub fn signed(&mut self, n: i64)
        requires { HasRoom self.old 21 }
        ensures signed { self.new ≡ self.old ++ 32 ∷ signed_decimal n }
        ensures length { length self.new ≤ length self.old + 21 }
    {
        let mut digits = Buffer::new();
        self.part(digits.format(n));
    }

    /// Adds a key behind one space, as it is shown: its first 64 bytes, with `?` for every byte other than an
    /// ASCII letter, an ASCII digit, `_`, `-` and `.`.
    pub fn key(&mut self, key: &str)
        requires { HasRoom self.old 65 }
        ensures key { self.new ≡ self.old ++ 32 ∷ shown_key key.now }
        ensures length { length self.new ≤ length self.old + 65 }
    {
        self.part("");
        let shown = SHOWN_BYTES.min(key.len());
        add_shown(&mut self.bytes, &key.as_bytes()[..shown]);
    }

    /// Adds the parts of a place: its level, and its position on each axis. They have at most 105 bytes.
    pub fn place(&mut self, dim: Dim, place: &Place)
        requires { HasRoom self.old 105 }
        ensures place { self.new ≡ self.old ++ flat_map (λ part. 32 ∷ part) (place_parts dim place.now) }
        ensures length { length self.new ≤ length self.old + 105 }
    {
        self.number(u64::from(place.level));
        for axis in 0..dim.axes() as usize {
            self.number(place.pos[axis]);
        }
    }

    /// Ends the line by a line feed, and gives it to a sink as one piece. After an `Err` the sink has taken
    /// a part of it.
    pub fn end<K: Sink>(self, sink: &mut K) -> Result<(), SinkFailed>
        ensures told { Tells (self ++ 10 ∷ []) (told_by K.text K.writes K.faults sink.old) (told_by K.text K.writes K.faults sink.new) result }

        // A piece at which the sink failed is counted too.
        ensures piece { CountsOne (K.writes sink.old) (K.writes sink.new) }
    {
        let mut bytes = self.bytes;
        bytes.push(b'\n');
        sink.write(bytes.as_slice())
    }
}

/// Adds bytes for which there is room.
fn add(line: &mut ArrayVec<u8, LINE_ROOM>, bytes: &[u8])
    requires { length line.old.items + length bytes.now ≤ LINE_ROOM }
    ensures { line.new.items ≡ line.old.items ++ bytes.now }
{
    match line.try_extend_from_slice(bytes) {
        Ok(()) => {}
        Err(_) => unreachable!(),
    }
}

/// Adds bytes as they are shown, for which there is room.
fn add_shown(line: &mut ArrayVec<u8, LINE_ROOM>, bytes: &[u8])
    requires { length line.old.items + length bytes.now ≤ LINE_ROOM }
    ensures { line.new.items ≡ line.old.items ++ map shown_byte bytes.now }
{
    for byte in bytes {
        line.push(shown_byte(*byte));
    }
}

/// A byte of a key as it is shown.
fn shown_byte(byte: u8) -> u8
    ensures { result ≡ shown_byte byte }
{
    if byte.is_ascii_alphanumeric() || byte == b'_' || byte == b'-' || byte == b'.' {
        byte
    } else {
        b'?'
    }
}
