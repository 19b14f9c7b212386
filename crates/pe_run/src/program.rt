//! The run of the program: the job of the words, its last line, and the exit status.
ghost use Rattle.std.specs.Prelude.{◌≡◌, ◌≤◌, ◌+◌, map, length, string_bytes};
ghost use Rattle.pe_base.specs.Calls.Counters.{Rises};
ghost use Rattle.pe_io.specs.Sink.{told_by};
ghost use Rattle.pe_stacks.specs.Holdings.{new_holdings, cleared};
ghost use Rattle.pe_run.specs.Traffic.{IsSettled};
ghost use Rattle.pe_run.specs.Tasks.{task_of};
ghost use Rattle.pe_run.specs.Run.{IsRun, IsShelfCause, IsComplete};
ghost use Rattle.pe_run.specs.Stages.{IsMade};

use crate::finish::{Last, finish};
use crate::refusal::{Fault, Refusal};
use crate::run::run;
use crate::status::{Interrupted, exit_status};
use pe_base::Fields;
use pe_io::{Shelf, Sink};
use pe_stacks::{CellRec, Depot, Shown, Vertex};
use pe_words::{Job, WordsFault, read_words};
use std::alloc::Global;

/// Runs the words of a command line, as those of `peano run <scenario>`, over a shelf and a sink, and answers
/// the exit status.
///
/// The job is `run` and the name of a scenario, which the shelf holds. Text and status are those of a walk in
/// curve order over the cells and vertices by address, as `docs/PROMISES.md` says. Vertices wait in the depot
/// `vertices`, which has ten stacks, and cells in `cells`, which has two; both are new, and hold nothing after
/// whichever status:
///
/// - 0: all is done, and the last line is `done`.
/// - 2: the words name no job (`fault words`).
/// - 3: the scenario is refused (`fault scenario ..`).
/// - 4: an event's result is out of range, a divisor is zero, or one cell more was to be walked than may be (`fault overflow ..`,
///   `fault division ..`, `fault cells ..`).
/// - 6: the shelf failed, or does not hold the scenario (`fault shelf scenario`).
/// - 7: the sink failed; a part of the text was written.
/// - 9: want of memory; a part of the text was written.
pub fn peano<H: Shelf, K: Sink, DV: Shown<Vertex<Fields>>, DC: Shown<CellRec<Fields>>>(
    alloc: Global,
    words: &[String],
    shelf: &mut H,
    sink: &mut K,
    vertices: &mut DV,
    cells: &mut DC,
) -> u8
    requires vertices { DV.holds vertices.old ≡ new_holdings 10 }
    requires cells { DC.holds cells.old ≡ new_holdings 2 }

    // Text, status and traffic are those of the job of the words, by what the shelf may have given it.
    ensures run { IsRun (task_of (map string_bytes words.now)) (H.contents shelf.old) (H.faults shelf.old) (H.faults shelf.new) (H.last_failed shelf.new)
        (told_by K.text K.writes K.faults sink.old) (told_by K.text K.writes K.faults sink.new) (DV.holds vertices.new) (DC.holds cells.new) result }
    ensures contents { H.contents shelf.new ≡ H.contents shelf.old }

    // An interruption has its cause outside, and the shelf is asked at most once for each name of the words.
    ensures shelf_cause { result ≡ 6 → IsShelfCause (task_of (map string_bytes words.now)) (H.contents shelf.old)
        (H.faults shelf.old) (H.faults shelf.new) (H.last_failed shelf.new) }
    ensures sink_cause { result ≡ 7 → Rises (K.faults sink.old) (K.faults sink.new) }
    ensures shelf_calls { H.calls shelf.new ≤ H.calls shelf.old + length (task_of (map string_bytes words.now)).names }

    // Where nothing failed, only want of memory keeps the run from its end.
    ensures completeness { ¬ Rises (H.faults shelf.old) (H.faults shelf.new) → ¬ Rises (K.faults sink.old) (K.faults sink.new)
        → IsComplete (task_of (map string_bytes words.now)) (H.contents shelf.old) (told_by K.text K.writes K.faults sink.old) (told_by K.text K.writes K.faults sink.new) result }

    // Whatever the status, no record stays anywhere.
    ensures depots { IsSettled (DV.holds vertices.new) × IsSettled (DC.holds cells.new) }
{
    let last = make(alloc, words, shelf, sink, vertices, cells);
    let ending = finish(last, sink);
    settle(vertices);
    settle(cells);
    exit_status(ending)
}

/// Makes the job of the words, up to its last line.
fn make<H: Shelf, K: Sink, DV: Depot<Vertex<Fields>>, DC: Depot<CellRec<Fields>>>(
    alloc: Global,
    words: &[String],
    shelf: &mut H,
    sink: &mut K,
    vertices: &mut DV,
    cells: &mut DC,
) -> Result<Last, Interrupted>
    requires vertices { DV.holds vertices.old ≡ new_holdings 10 }
    requires cells { DC.holds cells.old ≡ new_holdings 2 }
    ensures made { IsMade (task_of (map string_bytes words.now)) (H.contents shelf.old) (H.faults shelf.old) (H.faults shelf.new) (H.last_failed shelf.new)
        (told_by K.text K.writes K.faults sink.old) (told_by K.text K.writes K.faults sink.new) (DV.holds vertices.new) (DC.holds cells.new) result }
    ensures contents { H.contents shelf.new ≡ H.contents shelf.old }
    ensures calls { H.calls shelf.new ≤ H.calls shelf.old + length (task_of (map string_bytes words.now)).names }
    ensures idle { (DV.holds vertices.new).out ≡ 0 }
    ensures idle_cells { (DC.holds cells.new).out ≡ 0 }
{
    match read_words(alloc, words) {
        Ok(Job::Run { scenario }) => run(alloc, scenario.as_str(), shelf, sink, vertices, cells),
        Err(WordsFault::NoJob) => Refusal::Fault(Fault::Words).last(),
        Err(WordsFault::Memory) => Refusal::Memory.last(),
    }
}

/// Gives up what a run has left on the stacks of a depot.
fn settle<R, D: Depot<R>>(depot: &mut D)
    requires { (D.holds depot.old).out ≡ 0 }
    ensures cleared { D.holds depot.new ≡ cleared (D.holds depot.old) }
    ensures settled { IsSettled (D.holds depot.new) }
{
    depot.clear();
}
