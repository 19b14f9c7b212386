//! The numbers of a scenario: at which key each stands, in which range it is, and what it is where the document
//! does not say it.
ghost use Rattle.std.specs.Prelude.{◌≡◌, ◌≤◌, IfSome};
ghost use Rattle.pe_scene.specs.Numbers.{key_of, is_number, range_of, within};

use pe_base::limits::{LEAST_CELLS, MOST_CELLS, SCENARIO_TRAVERSALS};

/// A number of a scenario.
#[derive(Clone, Copy)]
pub(crate) enum Number {
    Dim,
    Traversals,
    MaxLevel,
    StartLevel,
    MaxCells,
}

/// The range of a number, and what it is where the document does not say it.
#[derive(Clone, Copy)]
pub(crate) struct Range {
    pub(crate) default: Option<u64>,
    pub(crate) low: u64,
    pub(crate) high: u64,
}

impl Number {
    /// The numbers in the order in which they are looked for.
    const ALL: [Number; 5] = [
        Number::Dim,
        Number::Traversals,
        Number::MaxLevel,
        Number::StartLevel,
        Number::MaxCells,
    ];

    /// The key at which the number stands.
    pub(crate) fn key(self) -> &'static str
        ensures { result.now ≡ key_of self }
    {
        match self {
            Number::Dim => "dim",
            Number::Traversals => "traversals",
            Number::MaxLevel => "max_level",
            Number::StartLevel => "start_level",
            Number::MaxCells => "max_cells",
        }
    }

    /// Whether a number stands at the key.
    pub(crate) fn stands_at(key: &str) -> bool
        ensures { result ≡ is_number key.now }
    {
        Number::ALL.iter().any(|number| key == number.key())
    }

    /// The range of the number, where the grid may have so many levels.
    pub(crate) fn range(self, levels: u64) -> Range
        ensures { result ≡ range_of levels self }
    {
        let (default, low, high) = match self {
            Number::Dim => (None, 2, 4),
            Number::Traversals => (None, 1, SCENARIO_TRAVERSALS),
            Number::MaxLevel => (Some(levels), 1, levels),
            Number::StartLevel => (Some(1), 1, levels),
            Number::MaxCells => (Some(MOST_CELLS), LEAST_CELLS, MOST_CELLS),
        };
        Range { default, low, high }
    }
}

impl Range {
    /// A number, where it is within the range.
    pub(crate) fn within(self, number: i64) -> Option<u64>
        ensures value { result ≡ within self number }
        ensures bounds { IfSome result (λ n. (self.low ≤ n) × (n ≤ self.high)) }
    {
        let number = u64::try_from(number).ok()?;
        if self.low <= number && number <= self.high {
            Some(number)
        } else {
            None
        }
    }
}
