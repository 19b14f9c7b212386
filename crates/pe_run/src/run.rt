//! The job `run`: a scenario, and its traversals in turn.
ghost use Rattle.std.specs.Prelude.{◌≡◌, ◌+◌, ◌≤◌, Ok, Some, IfOk, IfErr};
ghost use Rattle.pe_base.specs.Limits.{scenario_traversals};
ghost use Rattle.pe_io.specs.Sink.{told_by};
ghost use Rattle.pe_stacks.specs.Holdings.{new_holdings};
ghost use Rattle.pe_scene.specs.SaidView.{said_of};
ghost use Rattle.pe_words.specs.declared.job.Job.TheVariants.{Run};
ghost use Rattle.pe_run.specs.Tasks.{ended, ran, run_reads, task_for};
ghost use Rattle.pe_run.specs.Run.{CountsTraversals};
ghost use Rattle.pe_run.specs.Stages.{Gives, Refuses, LeadsTo, HaltsFor, IsMade};

use crate::finish::Last;
use crate::get::get;
use crate::lines::{cell_fault, event_fault};
use crate::refusal::{Fault, Refusal, Stage};
use crate::status::{Interrupted, Status};
use crate::traversals::{Halt, traverse_all};
use pe_adapt::WalkStop;
use pe_base::limits::SCENARIO_BYTES;
use pe_base::{Dim, Fields, Stop};
use pe_io::{Line, Shelf, Sink};
use pe_scene::{Scenario, SceneFault, read_scenario};
use pe_stacks::{CellRec, Depot, Vertex};
use std::alloc::Global;

/// Runs the scenario under a name, up to the last line.
pub fn run<H: Shelf, K: Sink, DV: Depot<Vertex<Fields>>, DC: Depot<CellRec<Fields>>>(
    alloc: Global,
    name: &str,
    shelf: &mut H,
    sink: &mut K,
    vertices: &mut DV,
    cells: &mut DC,
) -> Result<Last, Interrupted>
    requires vertices { DV.holds vertices.old ≡ new_holdings 10 }
    requires cells { DC.holds cells.old ≡ new_holdings 2 }
    ensures made { IsMade (task_for (Some (Run name.now))) (H.contents shelf.old) (H.faults shelf.old) (H.faults shelf.new) (H.last_failed shelf.new)
        (told_by K.text K.writes K.faults sink.old) (told_by K.text K.writes K.faults sink.new) (DV.holds vertices.new) (DC.holds cells.new) result }
    ensures contents { H.contents shelf.new ≡ H.contents shelf.old }
    ensures calls { H.calls shelf.new ≤ H.calls shelf.old + 1 }
    ensures idle { (DV.holds vertices.new).out ≡ 0 }
    ensures idle_cells { (DC.holds cells.new).out ≡ 0 }
{
    match ask_run(alloc, name, shelf) {
        Ok(scenario) => act_run(&scenario, sink, vertices, cells),
        Err(refusal) => refusal.last(),
    }
}

/// The scenario under a name, or why there is none.
fn ask_run<H: Shelf>(alloc: Global, name: &str, shelf: &mut H) -> Result<Scenario, Refusal>
    ensures given { IfOk result (λ scenario. Gives (H.contents shelf.old) (H.faults shelf.old) (H.faults shelf.new) (H.last_failed shelf.new)
        (run_reads name.now) (ran (said_of scenario))) }
    ensures refused { IfErr result (Refuses (H.contents shelf.old) (H.faults shelf.old) (H.faults shelf.new) (H.last_failed shelf.new) (run_reads name.now)) }
    ensures contents { H.contents shelf.new ≡ H.contents shelf.old }
    ensures calls { H.calls shelf.new ≤ H.calls shelf.old + 1 }
    ensures few { IfOk result (λ scenario. scenario.traversals ≤ scenario_traversals) }
{
    let Some(bytes) = get(shelf, Stage::Scenario, name, SCENARIO_BYTES)? else {
        return Err(Refusal::Fault(Fault::Scenario(SceneFault::TooLong)));
    };
    Ok(read_scenario(alloc, &bytes)?)
}

/// The traversals of a scenario, up to the last line.
fn act_run<K: Sink, DV: Depot<Vertex<Fields>>, DC: Depot<CellRec<Fields>>>(
    scenario: &Scenario,
    sink: &mut K,
    vertices: &mut DV,
    cells: &mut DC,
) -> Result<Last, Interrupted>
    requires few { scenario.now.traversals ≤ scenario_traversals }
    requires vertices { DV.holds vertices.old ≡ new_holdings 10 }
    requires cells { DC.holds cells.old ≡ new_holdings 2 }
    ensures leads { LeadsTo (ended (Ok (ran (said_of scenario.now)))) (told_by K.text K.writes K.faults sink.old) (told_by K.text K.writes K.faults sink.new) result }
    ensures traffic { IfOk result (λ last. last.status ≡ Status.Done → CountsTraversals (Ok (ran (said_of scenario.now))) (DV.holds vertices.new) (DC.holds cells.new)) }
    ensures idle { (DV.holds vertices.new).out ≡ 0 }
    ensures idle_cells { (DC.holds cells.new).out ≡ 0 }
{
    match traverse_all(scenario, sink, vertices, cells) {
        Ok(()) => Ok(Last {
            status: Status::Done,
            line: Line::of("done"),
        }),
        Err(halt) => halted(scenario.setup.dim, &halt),
    }
}

/// The last line of a run that ends before all of its traversals are done. A failed sink and want of memory have none.
fn halted(dim: Dim, halt: &Halt) -> Result<Last, Interrupted>
    ensures halted { HaltsFor dim halt.now result }
{
    let Halt::Walk { traversal, stop } = halt else {
        return Err(Interrupted::Sink);
    };
    let line = match stop {
        WalkStop::Event { stop, event, at } => match stop {
            Stop::Overflow => event_fault("overflow", dim, *traversal, *event, at),
            Stop::Division => event_fault("division", dim, *traversal, *event, at),
            Stop::Sink => return Err(Interrupted::Sink),
            Stop::Memory => return Err(Interrupted::Memory),
        },
        WalkStop::CellLimit { at } => cell_fault(dim, *traversal, at),
        WalkStop::Memory => return Err(Interrupted::Memory),
    };
    Ok(Last {
        status: Status::Halted,
        line,
    })
}
