//! The bodies of a scenario, one for each event at most.
ghost use Rattle.std.specs.Prelude.{◌≡◌, replicate, None, Some, slice_get, slice_set};
ghost use Rattle.std.specs.Option.{option_copied};
ghost use Rattle.pe_base.specs.Acts.Events.{number_of};
ghost use Rattle.pe_scene.specs.Bodies.{body_at};

use pe_base::Event;
use pe_check::Checked;
use std::marker::Model;

/// For each event its body, if it has one.
#[derive(Debug, Drop)]
pub struct Bodies {
    listed: [Option<Checked>; Event::COUNT],
}

impl Model for Bodies {
    ghost use Rattle.std.specs.Prelude.{List, Option};
    ghost use Rattle.std.specs.Coded.{codes};
    ghost use Rattle.pe_check.specs.declared.checked.Stmt.{Stmt};
    ghost use Rattle.pe_check.specs.contracts.checked.Stmt as stmt;

    ghost Value = { List (Option (List Stmt)) };

    ghost coded = { Prim.hlevel (codes, stmt.the_row.coded) };

    ghost view = { λ bodies. bodies.listed };
}

impl Bodies {
    /// No event has a body.
    pub fn none() -> Bodies
        ensures { result ≡ replicate 12 None }
    {
        Bodies {
            listed: Default::default(),
        }
    }

    /// Gives the event this body, in place of one that it had.
    pub fn set(&mut self, event: Event, body: Checked)
        ensures { self.new ≡ slice_set self.old (number_of event) (Some body) }
    {
        self.listed[event as usize] = Some(body);
    }

    /// The body of the event, if it has one.
    pub fn of(&self, event: Event) -> Option<&Checked>
        ensures { option_copied result ≡ body_at self.now event }
    {
        self.listed[event as usize].as_ref()
    }
}
