// How a run ends.
ghost use Rattle.std.specs.Prelude.{◌≡◌};
ghost use Rattle.pe_run.specs.declared.status.Interrupted.TheVariants.{Sink as SinkInterrupts};
ghost use Rattle.pe_run.specs.Endings.{ending_of};

use pe_io::SinkFailed;

/// How a run ends by itself.
#[derive(Clone, Copy, Debug, PartialEq, Eq)]
pub enum Status {
    /// All is done.
    Done,
    /// The words name no job.
    NoJob,
    /// The scenario is refused.
    Refused,
    /// A traversal is halted by an event, or by one cell too many.
    Halted,
    /// The shelf gives no scenario.
    NoShelf,
}

/// What interrupts a run.
#[derive(Clone, Copy, Debug, PartialEq, Eq)]
pub enum Interrupted {
    /// The sink failed.
    Sink,
    /// Want of memory.
    Memory,
}

impl From<SinkFailed> for Interrupted {
    ghost from_gives = { λ _ interrupted. interrupted ≡ SinkInterrupts };

    fn from(_: SinkFailed) -> Interrupted {
        Interrupted::Sink
    }
}

/// The number with which the program ends.
pub fn exit_status(ending: Result<Status, Interrupted>) -> u8
    ensures { result ≡ ending_of ending }
{
    match ending {
        Ok(Status::Done) => 0,
        Ok(Status::NoJob) => 2,
        Ok(Status::Refused) => 3,
        Ok(Status::Halted) => 4,
        Ok(Status::NoShelf) => 6,
        Err(Interrupted::Sink) => 7,
        Err(Interrupted::Memory) => 9,
    }
}
