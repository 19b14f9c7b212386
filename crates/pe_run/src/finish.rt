//! The last line of a run.
ghost use Rattle.pe_io.specs.Sink.{told_by};
ghost use Rattle.pe_run.specs.Stages.{Finishes};

use crate::status::{Interrupted, Status};
use pe_io::{Line, Sink};

/// How a run ends by itself: its status and its last line.
#[derive(Drop)]
pub struct Last {
    /// The status.
    pub status: Status,
    /// The line.
    pub line: Line,
}

/// Ends a run: writes its last line, and answers its status. What interrupted the run before its last line interrupts it here.
pub fn finish<K: Sink>(last: Result<Last, Interrupted>, sink: &mut K) -> Result<Status, Interrupted>
    ensures finished { Finishes last (told_by K.text K.writes K.faults sink.old) (told_by K.text K.writes K.faults sink.new) result }
{
    let Last { status, line } = last?;
    line.end(sink)?;
    Ok(status)
}
