//! The last lines of a run: refusals, and what halts a traversal.
ghost use Rattle.std.specs.Prelude.{◌≡◌, ◌+◌, ◌≤◌, [], ◌∷◌, ◌++◌, MatchBool, Err, IsOkAnd, length, decimal, codes};
ghost use Rattle.pe_base.specs.Lines.{fault_line, fault_at_key, fault_in_body, fault_at_event, fault_cells};
ghost use Rattle.pe_base.specs.Calls.Told.{Tells};
ghost use Rattle.pe_io.specs.Sink.{told_by};
ghost use Rattle.pe_io.specs.Line.{HasRoom, HasNoFeed};
ghost use Rattle.pe_run.specs.Endings.{cause_name, stage_name, scene_line, is_scene_memory};

use crate::refusal::Stage;
use crate::status::Interrupted;
use pe_base::{Dim, Event, Place, Sort};
use pe_io::{Line, Sink, SinkFailed};
use pe_scene::{BodyCause, SceneFault};

/// The line of a stage for which the shelf gives nothing.
pub fn shelf_line(stage: Stage) -> Line
    ensures { result ++ 10 ∷ [] ≡ fault_line (codes "shelf" ∷ stage_name stage ∷ []) }
{
    let mut line = Line::of("fault shelf");
    line.part(stage.name());
    line
}

/// The line of a refused scenario. Want of memory has none.
pub fn scene_line(fault: &SceneFault) -> Result<Line, Interrupted>
    ensures line { MatchBool (is_scene_memory fault.now) (result ≡ Err Interrupted.Memory) (IsOkAnd result (λ line. line ++ 10 ∷ [] ≡ scene_line fault.now)) }
{
    match fault {
        SceneFault::TooLong => Ok(Line::of("fault scenario too-long")),
        SceneFault::NotToml => Ok(Line::of("fault scenario not-toml")),
        SceneFault::UnknownKey { key } => Ok(key_fault("unknown-key", key.as_str())),
        SceneFault::Missing { key } => Ok(key_fault("missing", key.as_str())),
        SceneFault::Shape { key } => Ok(key_fault("shape", key.as_str())),
        SceneFault::Range { key } => Ok(key_fault("range", key.as_str())),
        SceneFault::Name { key } => Ok(key_fault("name", key.as_str())),
        SceneFault::Body { event, at, cause } => Ok(body_fault(*event, *at, *cause)),
        SceneFault::Memory => Err(Interrupted::Memory),
    }
}

// The line of a scenario that is refused for what stands at a key.
fn key_fault(cause: &str, key: &str) -> Line
    requires short { length cause.now ≤ 16 }
    requires plain { HasNoFeed cause.now }
    ensures { result ++ 10 ∷ [] ≡ fault_at_key cause.now key.now }
{
    let mut line = Line::of("fault scenario");
    line.part(cause);
    line.key(key);
    line
}

// The line of a scenario that is refused for the body of an event.
fn body_fault(event: Event, offset: u64, cause: BodyCause) -> Line
    ensures { result ++ 10 ∷ [] ≡ fault_in_body event offset (cause_name cause) }
{
    let mut line = Line::of("fault scenario body");
    line.part(event.name());
    line.number(offset);
    line.part(cause_name(cause));
    line
}

// Why a body is refused, in a word.
fn cause_name(cause: BodyCause) -> &'static str
    ensures name { result.now ≡ cause_name cause }
    ensures short { length result.now ≤ 12 }
    ensures plain { HasNoFeed result.now }
{
    match cause {
        BodyCause::Character => "character",
        BodyCause::Syntax => "syntax",
        BodyCause::TooDeep => "too-deep",
        BodyCause::TooMany => "too-many",
        BodyCause::Literal => "literal",
        BodyCause::UnknownName => "unknown-name",
        BodyCause::NotHere => "not-here",
        BodyCause::Corner => "corner",
        BodyCause::ReadOnly => "read-only",
    }
}

/// The line of a traversal that is halted at an event, with the event's place unless it is plain.
pub fn event_fault(cause: &str, dim: Dim, traversal: u64, event: Event, at: &Place) -> Line
    requires short { length cause.now ≤ 16 }
    requires plain { HasNoFeed cause.now }
    ensures { result ++ 10 ∷ [] ≡ fault_at_event cause.now dim traversal event at.now }
{
    let mut line = halted(cause, traversal);
    line.part(event.name());
    match event.sort() {
        Sort::Plain => {}
        Sort::Vertex | Sort::Cell => line.place(dim, at),
    }
    line
}

/// The line of a traversal that is halted at one cell too many.
pub fn cell_fault(dim: Dim, traversal: u64, at: &Place) -> Line
    ensures { result ++ 10 ∷ [] ≡ fault_cells dim traversal at.now }
{
    let mut line = halted("cells", traversal);
    line.place(dim, at);
    line
}

// The first parts of the line of a traversal that is halted.
fn halted(cause: &str, traversal: u64) -> Line
    requires short { length cause.now ≤ 16 }
    requires plain { HasNoFeed cause.now }
    ensures text { result ≡ codes "fault" ++ 32 ∷ cause.now ++ 32 ∷ codes "traversal" ++ 32 ∷ decimal traversal }
    ensures length { length result ≤ 53 }
{
    let mut line = Line::of("fault");
    line.part(cause);
    line.part("traversal");
    line.number(traversal);
    line
}
