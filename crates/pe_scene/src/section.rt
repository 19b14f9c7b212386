//! The tables of a scenario: which keys may stand in each, and what stands at a key.
ghost use Rattle.std.specs.Prelude.{◌≡◌, option_map, codes, ◌++◌, string_bytes, IfOk};
ghost use Rattle.std.specs.Option.{option_copied};
ghost use Rattle.toml.specs.View.{view, table_view};
ghost use Rattle.toml.specs.Data.{get_member};
ghost use Rattle.pe_scene.specs.Sections.{lists, named, unknown_in};

use crate::number::Number;
use pe_base::{Event, Text};
use std::alloc::{AllocError, Global};
use toml::{Table, Value};

/// A table of a scenario.
#[derive(Clone, Copy)]
pub(crate) enum Section {
    Document,
    Fields,
    Events,
}

impl Section {
    /// Whether a key may stand in the table.
    fn lists(self, key: &str) -> bool
        ensures { result ≡ lists self key.now }
    {
        match self {
            Section::Document => {
                Number::stands_at(key) || key == "trace" || key == "fields" || key == "events"
            }
            Section::Fields => key == "vertex" || key == "cell" || key == "global",
            Section::Events => Event::of_name(key).is_some(),
        }
    }

    /// A key as a fault names it.
    pub(crate) fn named(self, alloc: Global, key: &str) -> Result<Text, AllocError>
        ensures { IfOk result (λ text. text ≡ named self key.now) }
    {
        let mut text = match self {
            Section::Document => "".to_string(alloc)?,
            Section::Fields => "fields.".to_string(alloc)?,
            Section::Events => "events.".to_string(alloc)?,
        };
        text.push_str(key)?;
        Ok(Text::new(text))
    }

    /// The least key that may not stand in the table.
    pub(crate) fn unknown_in(self, table: &Table) -> Option<&str>
        ensures { option_copied result ≡ unknown_in self (table_view table.now) }
    {
        for key in table.keys() {
            if !self.lists(key.as_str()) {
                return Some(key.as_str());
            }
        }
        None
    }
}

/// The value at a key.
pub(crate) fn value_at<'a>(table: &'a Table, key: &str) -> Option<&'a Value>
    ensures { option_map (λ value. view value.now) result ≡ get_member key.now (table_view table.now) }
{
    table.get(key)
}
