ghost use Rattle.std.specs.Prelude.{◌≡◌, ◌∷◌, List, IsTrue, true};
ghost use Rattle.std.specs.List.{list_all};
ghost use Rattle.pe_base.specs.Acts.Effects.{MayLeave};
ghost use Rattle.pe_base.specs.Calls.Outcomes.{AnswersBy};
ghost use Rattle.pe_io.specs.Sink.{told_by};
ghost use Rattle.pe_check.specs.Fits.{fits, stmt_fits, expr_fits};
ghost use Rattle.pe_eval.specs.Meaning.{meaning, act_of, printed};
ghost use Rattle.pe_eval.specs.Sights.{sight, globals_of, frame, reach_of, situation, IsReady};
ghost use Rattle.pe_eval.specs.Interrupted.{IfSinkFails, StoodAt, PrintFails};
ghost use Rattle.pe_check.specs.declared.checked.Stmt.{Stmt as Statement};

use crate::print::print_line;
use crate::value::value;
use crate::view::View;
use pe_base::Stop;
use pe_check::{Checked, Stmt, Values};
use pe_io::Sink;

/// Runs a body at an event: what it does to what the view lends, and what it writes, is its meaning.
///
/// Takes no memory, and looks no name up. After an `Err` the statements before the fault have had their
/// effect; a sink that failed got a part of the text.
pub fn eval<K: Sink>(body: &Checked, view: &mut View, sink: &mut K) -> Result<(), Stop>
    requires fits { IsTrue (fits (reach_of view.old) body.now) }
    requires ready { IsReady view.old }
    ensures answer { AnswersBy (meaning body.now (frame view.old).setting (sight view.old) (globals_of view.old)) true
        (told_by K.text K.writes K.faults sink.old) (told_by K.text K.writes K.faults sink.new) (globals_of view.new) (sight view.new) result }
    ensures interrupted { IfSinkFails result (StoodAt (frame view.old).setting body.now (sight view.old) (globals_of view.old)
        (told_by K.text K.writes K.faults sink.old) (told_by K.text K.writes K.faults sink.new) (sight view.new) (globals_of view.new)) }
    ensures lawful { MayLeave (frame view.old).setting.max_level (sight view.old) (sight view.new) }
    ensures frame { frame view.new ≡ frame view.old }
    ensures ready { IsReady view.new }
{
    run(body.as_slice(), view, sink)
}

/// Runs statements in turn.
#[cycle(run)]
fn run<K: Sink>(body: &[Stmt], view: &mut View, sink: &mut K) -> Result<(), Stop>
    requires fits { IsTrue (fits (reach_of view.old) body.now) }
    requires ready { IsReady view.old }
    ensures answer { AnswersBy (meaning body.now (frame view.old).setting (sight view.old) (globals_of view.old)) true
        (told_by K.text K.writes K.faults sink.old) (told_by K.text K.writes K.faults sink.new) (globals_of view.new) (sight view.new) result }
    ensures interrupted { IfSinkFails result (StoodAt (frame view.old).setting body.now (sight view.old) (globals_of view.old)
        (told_by K.text K.writes K.faults sink.old) (told_by K.text K.writes K.faults sink.new) (sight view.new) (globals_of view.new)) }
    ensures lawful { MayLeave (frame view.old).setting.max_level (sight view.old) (sight view.new) }
    ensures frame { frame view.new ≡ frame view.old }
    ensures ready { IsReady view.new }
{
    for stmt in body {
        match step(stmt, view, sink) {
            Ok(()) => {}
            Err(stop) => return Err(stop),
        }
    }
    Ok(())
}

/// Runs a statement.
#[cycle(run)]
fn step<K: Sink>(stmt: &Stmt, view: &mut View, sink: &mut K) -> Result<(), Stop>
    requires fits { IsTrue (stmt_fits (reach_of view.old) stmt.now) }
    requires ready { IsReady view.old }
    ensures answer { AnswersBy (act_of stmt.now (frame view.old).setting (sight view.old) (globals_of view.old)) true
        (told_by K.text K.writes K.faults sink.old) (told_by K.text K.writes K.faults sink.new) (globals_of view.new) (sight view.new) result }
    ensures interrupted { (rest : List Statement) → IfSinkFails result (StoodAt (frame view.old).setting (stmt.now ∷ rest) (sight view.old) (globals_of view.old)
        (told_by K.text K.writes K.faults sink.old) (told_by K.text K.writes K.faults sink.new) (sight view.new) (globals_of view.new)) }
    ensures lawful { MayLeave (frame view.old).setting.max_level (sight view.old) (sight view.new) }
    ensures frame { frame view.new ≡ frame view.old }
    ensures ready { IsReady view.new }
{
    match stmt {
        Stmt::Assign(slot, expr) => match value(expr, view) {
            Ok(n) => {
                view.set(*slot, n);
                Ok(())
            }
            Err(fault) => Err(fault.stop()),
        },
        Stmt::Trigger(trigger, vertex) => {
            view.apply(*trigger, *vertex);
            Ok(())
        }
        Stmt::Print(values) => print(values, view, sink),
        Stmt::If(test, body) => match value(test, view) {
            Ok(0) => Ok(()),
            Ok(_) => run(body.as_slice(), view, sink),
            Err(fault) => Err(fault.stop()),
        },
        Stmt::IfElse(test, body, other) => match value(test, view) {
            Ok(0) => run(other.as_slice(), view, sink),
            Ok(_) => run(body.as_slice(), view, sink),
            Err(fault) => Err(fault.stop()),
        },
    }
}

/// Writes the line of a print by one call, once all its values are known.
fn print<K: Sink>(values: &Values, view: &View, sink: &mut K) -> Result<(), Stop>
    requires fits { IsTrue (list_all (expr_fits (reach_of view.now)) values.now) }
    requires ready { IsReady view.now }
    ensures answer { AnswersBy (printed values.now (situation view.now)) true
        (told_by K.text K.writes K.faults sink.old) (told_by K.text K.writes K.faults sink.new) (globals_of view.now) (sight view.now) result }
    ensures interrupted { IfSinkFails result (PrintFails values.now (situation view.now)
        (told_by K.text K.writes K.faults sink.old) (told_by K.text K.writes K.faults sink.new)) }
{
    let line = match print_line(values.as_slice(), view) {
        Ok(line) => line,
        Err(fault) => return Err(fault.stop()),
    };
    match line.end(sink) {
        Ok(()) => Ok(()),
        Err(_) => Err(Stop::Sink),
    }
}
