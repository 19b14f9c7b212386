ghost use Rattle.std.specs.Prelude.{◌≡◌, IsTrue, false, Ok};
ghost use Rattle.std.specs.List.{list_all};
ghost use Rattle.pe_check.specs.Fits.{expr_fits};
ghost use Rattle.pe_eval.specs.Values.{is_simple, value_of, value_behind};
ghost use Rattle.pe_eval.specs.Sights.{reach_of, IsReady, situation};

use crate::arithmetic::{absolute, combined, extreme, is_decided, prefixed, truth};
use crate::fault::Fault;
use crate::view::View;
use pe_check::Expr;

/// The value of an expression at an event. A number and a name are had without a call.
#[inline(always)]
#[cycle(value)]
pub(crate) fn value(expr: &Expr, view: &View) -> Result<i64, Fault>
    requires fits { IsTrue (expr_fits (reach_of view.now) expr.now) }
    requires ready { IsReady view.now }
    ensures { result ≡ value_of expr.now (situation view.now) }
{
    match expr {
        Expr::Number(n) => Ok(*n),
        Expr::Name(name) => Ok(view.named(*name)),
        Expr::Unary(..) | Expr::Chain(..) | Expr::Extreme(..) | Expr::Abs(..) => {
            compound(expr, view)
        }
    }
}

/// The value of an expression that has parts.
#[cycle(value)]
fn compound(expr: &Expr, view: &View) -> Result<i64, Fault>
    requires compound { is_simple expr.now ≡ false }
    requires fits { IsTrue (expr_fits (reach_of view.now) expr.now) }
    requires ready { IsReady view.now }
    ensures { result ≡ value_of expr.now (situation view.now) }
{
    match expr {
        Expr::Number(_) | Expr::Name(_) => unreachable!(),
        Expr::Unary(prefix, operand) => prefixed(*prefix, value(operand.get(), view)?),
        Expr::Chain(first, links) => {
            let mut so_far = match value(first.get(), view) {
                Ok(first) => first,
                Err(fault) => return Err(fault),
            };
            for (sign, operand) in links.as_slice() {
                if is_decided(*sign, so_far) {
                    so_far = truth(so_far != 0);
                    continue;
                }
                let operand = match value(operand, view) {
                    Ok(operand) => operand,
                    Err(fault) => return Err(fault),
                };
                so_far = match combined(*sign, so_far, operand) {
                    Ok(so_far) => so_far,
                    Err(fault) => return Err(fault),
                };
            }
            Ok(so_far)
        }
        Expr::Extreme(choice, left, right) => {
            let left = value(left.get(), view)?;
            Ok(extreme(*choice, left, value(right.get(), view)?))
        }
        Expr::Abs(operand) => absolute(value(operand.get(), view)?),
    }
}
