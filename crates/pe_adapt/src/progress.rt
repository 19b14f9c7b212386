ghost use Rattle.std.specs.Prelude.{◌≡◌};
ghost use Rattle.pe_base.specs.Walk.Working.{no_tally};

use crate::settings::Settings;
use pe_base::{Place, Tally};

/// How far a traversal has come.
#[derive(Clone, Copy, Debug, PartialEq, Eq)]
pub struct Progress {
    /// What it has counted.
    pub tally: Tally,
    /// The place where it halted, if it did.
    pub at: Place,
}

impl Progress {
    /// Nothing is counted yet.
    pub fn at_first(settings: &Settings, at: Place) -> Progress
        ensures { result.tally ≡ no_tally settings.now.traversal }
    {
        Progress {
            tally: Tally {
                traversal: settings.traversal,
                way: settings.way,
                cells: 0,
                read: 0,
                written: 0,
                created: 0,
                destroyed: 0,
                hanging: 0,
                deepest: 0,
            },
            at,
        }
    }
}
