//! Why a scenario is refused.
ghost use Rattle.std.specs.Prelude.{ℕ, Err};
ghost use Rattle.pe_scene.specs.Sections.{named};
ghost use Rattle.pe_scene.specs.Faults.{Refuses, fault_at};

use crate::section::Section;
use pe_base::{Event, Text};
use std::alloc::Global;

/// Why a body is refused: by its characters, its grammar, or its names.
#[derive(Clone, Copy, Debug, PartialEq, Eq)]
pub enum BodyCause {
    /// A character begins no token.
    Character,
    /// A token may not come where it stands, or one is missing at the end.
    Syntax,
    /// Parentheses, braces and signs nest too deep.
    TooDeep,
    /// A chain has too many operands, or a print too many values.
    TooMany,
    /// A number is too large.
    Literal,
    /// A name is unknown.
    UnknownName,
    /// The event has nothing of that name.
    NotHere,
    /// A cell has no corner of that number.
    Corner,
    /// What is assigned may not be.
    ReadOnly,
}

/// Why a scenario is refused. A key inside a table is named with it, as `fields.vertex`.
#[derive(Debug, Drop)]
pub enum SceneFault {
    /// It has more bytes than a scenario may have.
    TooLong,
    /// It is no TOML document.
    NotToml,
    /// It has a key that is not listed: the least one by bytes.
    UnknownKey {
        /// The key.
        key: Text,
    },
    /// A key is missing.
    Missing {
        /// The key.
        key: Text,
    },
    /// The value at a key has another form.
    Shape {
        /// The key.
        key: Text,
    },
    /// The value at a key is out of its range.
    Range {
        /// The key.
        key: Text,
    },
    /// A text at a key names nothing that it may name, or comes twice.
    Name {
        /// The key.
        key: Text,
    },
    /// The body of an event is refused.
    Body {
        /// The event.
        event: Event,
        /// Where in the body, in bytes.
        at: u64,
        /// Why.
        cause: BodyCause,
    },
    /// Want of memory.
    Memory,
}

/// What is wrong with a key, or with what stands there.
#[derive(Clone, Copy)]
pub(crate) enum KeyFault {
    Unknown,
    Missing,
    Shape,
    Range,
    Name,
}

impl KeyFault {
    /// The fault at a key of a table.
    pub(crate) fn at(self, alloc: Global, section: Section, key: &str) -> SceneFault
        ensures { Refuses {D = ℕ} result (Err (fault_at self (named section key.now))) }
    {
        let key = match section.named(alloc, key) {
            Ok(key) => key,
            Err(_) => return SceneFault::Memory,
        };
        match self {
            KeyFault::Unknown => SceneFault::UnknownKey { key },
            KeyFault::Missing => SceneFault::Missing { key },
            KeyFault::Shape => SceneFault::Shape { key },
            KeyFault::Range => SceneFault::Range { key },
            KeyFault::Name => SceneFault::Name { key },
        }
    }
}
