//! Why a job is not done, and what is said then.
ghost use Rattle.std.specs.Prelude.{◌≡◌, ◌≤◌, MatchBool, Err, length, IsOkAnd};
ghost use Rattle.pe_io.specs.Line.{HasNoFeed};
ghost use Rattle.pe_run.specs.declared.refusal.Fault.TheVariants.{Scenario as OfScenario};
ghost use Rattle.pe_run.specs.declared.refusal.Refusal.TheVariants.{Fault as OfFault};
ghost use Rattle.pe_run.specs.Endings.{stage_name, is_memory, refusal_ran};
ghost use Rattle.pe_run.specs.Stages.{IsLast};

use crate::finish::Last;
use crate::lines::{scene_line, shelf_line};
use crate::status::{Interrupted, Status};
use pe_io::Line;
use pe_scene::SceneFault;

/// What a job asks the shelf for.
#[derive(Clone, Copy, Debug, PartialEq, Eq)]
pub enum Stage {
    /// The scenario.
    Scenario,
}

impl Stage {
    /// Its name in a line.
    pub fn name(self) -> &'static str
        ensures name { result.now ≡ stage_name self }
        ensures short { length result.now ≤ 8 }
        ensures plain { HasNoFeed result.now }
    {
        match self {
            Stage::Scenario => "scenario",
        }
    }
}

/// Why what was asked for is refused.
#[derive(Debug, Drop)]
pub enum Fault {
    /// The words name no job.
    Words,
    /// The bytes of the scenario are refused, or there was no memory to read them.
    Scenario(SceneFault),
}

/// Why a job is not done.
#[derive(Debug, Drop)]
pub enum Refusal {
    /// What was asked for is refused.
    Fault(Fault),
    /// The shelf gives nothing for this stage.
    NoShelf(Stage),
    /// Want of memory.
    Memory,
}

impl Refusal {
    /// The table of refusals: the status and the last line of each, in the order of the statuses. Want of memory has no line.
    pub fn last(&self) -> Result<Last, Interrupted>
        ensures last { MatchBool (is_memory self.now) (result ≡ Err Interrupted.Memory) (IsOkAnd result (IsLast (refusal_ran self.now))) }
    {
        match self {
            Refusal::Fault(Fault::Words) => Ok(Last {
                status: Status::NoJob,
                line: Line::of("fault words"),
            }),
            Refusal::Fault(Fault::Scenario(fault)) => Ok(Last {
                status: Status::Refused,
                line: scene_line(fault)?,
            }),
            Refusal::NoShelf(stage) => Ok(Last {
                status: Status::NoShelf,
                line: shelf_line(*stage),
            }),
            Refusal::Memory => Err(Interrupted::Memory),
        }
    }
}

impl From<SceneFault> for Refusal {
    ghost from_gives = { λ fault refusal. refusal ≡ OfFault (OfScenario fault) };

    fn from(fault: SceneFault) -> Refusal {
        Refusal::Fault(Fault::Scenario(fault))
    }
}
