ghost use Rattle.std.specs.Prelude.{◌≡◌, ◌≤◌, IsTrue, length};
ghost use Rattle.std.specs.List.{list_all};
ghost use Rattle.pe_io.specs.Line.{HasRoom};
ghost use Rattle.pe_check.specs.Fits.{expr_fits};
ghost use Rattle.pe_eval.specs.Values.{values_of, with_values};
ghost use Rattle.pe_eval.specs.Meaning.{print_start};
ghost use Rattle.pe_eval.specs.Sights.{reach_of, IsReady, situation};

use crate::fault::Fault;
use crate::value::value;
use crate::view::View;
use pe_check::Expr;
use pe_io::Line;

/// The line of a print, without its line feed. It has all values, from left to right.
pub(crate) fn print_line(values: &[Expr], view: &View) -> Result<Line, Fault>
    requires few { length values.now ≤ 8 }
    requires fits { IsTrue (list_all (expr_fits (reach_of view.now)) values.now) }
    requires ready { IsReady view.now }
    ensures { result ≡ with_values print_start (values_of values.now (situation view.now)) }
{
    let mut line = Line::of("print");
    for expr in values {
        match value(expr, view) {
            Ok(n) => line.signed(n),
            Err(fault) => return Err(fault),
        }
    }
    Ok(line)
}
