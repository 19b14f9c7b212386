ghost use Rattle.std.specs.Prelude.{◌≡◌, length, map, IfOk, IsTrue};
ghost use Rattle.std.specs.List.{list_all};
ghost use Rattle.std.specs.Option.{option_copied};
ghost use Rattle.pe_parse.specs.Statements.{statement_of, statements_of};
ghost use Rattle.pe_check.specs.FieldNames.{names_view};
ghost use Rattle.pe_check.specs.Fits.{expr_fits, stmt_fits, fits};
ghost use Rattle.pe_check.specs.Resolving.{reach_in, context_at};
ghost use Rattle.pe_check.specs.Scopes.{context_of};
ghost use Rattle.pe_check.specs.Checking.{expr_of, stmt_of, body_of, all_of};
ghost use Rattle.pe_check.specs.Answers.{Gives};

use crate::cause::CheckFault;
use crate::checked::{Checked, Expr, Stmt, Values};
use crate::resolve::Scope;
use pe_base::{Boxed, Dim, Event, List, Names, Text};
use pe_parse::{self as tree, Body};
use std::alloc::Global;

/// The tree of a body with each name replaced by what it stands for at an event, or the first name in the
/// text that is refused. Names in branches that never run are checked too.
///
/// The cause of a refusal is the first of: the name speaks of nothing; this event does not see it; a cell has
/// no such corner; what stands behind the dot is no field there; it is assigned and may not be.
pub fn check(
    alloc: Global,
    body: Body,
    event: Event,
    names: &Names,
    dim: Dim,
) -> Result<Checked, CheckFault>
    ensures answer { Gives (λ checked. checked) result (body_of (context_at event dim (names_view names.now)) (statements_of body)) }
    ensures fits { IfOk result (λ checked. IsTrue (fits (reach_in (context_at event dim (names_view names.now))) checked)) }
{
    let scope = Scope {
        sort: event.sort(),
        dim,
        names,
    };
    check_body(alloc, body.as_slice(), &scope)
}

/// The tree of an expression with its names replaced.
fn check_expr(alloc: Global, expr: &tree::Expr, scope: &Scope) -> Result<Expr, CheckFault>
    ensures answer { Gives (λ x. x) result (expr_of (context_of scope.now) expr.now) }
    ensures fits { IfOk result (λ x. IsTrue (expr_fits (reach_in (context_of scope.now)) x)) }
{
    match expr {
        tree::Expr::Number(n) => Ok(Expr::Number(*n)),
        tree::Expr::Name(name) => match scope.name(name.first.as_str(), word_of(&name.second)) {
            Ok(it) => Ok(Expr::Name(it)),
            Err(cause) => Err(cause.at(name.at)),
        },
        tree::Expr::Unary(prefix, operand) => {
            let operand = check_expr(alloc, operand.get(), scope)?;
            Ok(Expr::Unary(*prefix, Boxed::new(alloc, operand)?))
        }
        tree::Expr::Chain(first, links) => {
            let first = check_expr(alloc, first.get(), scope)?;
            let mut checked = Vec::new(alloc);
            for (sign, operand) in links.as_slice() {
                let operand = match check_expr(alloc, operand, scope) {
                    Ok(operand) => operand,
                    Err(fault) => return Err(fault),
                };
                checked.push((*sign, operand))?;
            }
            Ok(Expr::Chain(Boxed::new(alloc, first)?, List::new(checked)))
        }
        tree::Expr::Extreme(choice, left, right) => {
            let left = check_expr(alloc, left.get(), scope)?;
            let right = check_expr(alloc, right.get(), scope)?;
            Ok(Expr::Extreme(*choice, Boxed::new(alloc, left)?, Boxed::new(alloc, right)?))
        }
        tree::Expr::Abs(operand) => {
            let operand = check_expr(alloc, operand.get(), scope)?;
            Ok(Expr::Abs(Boxed::new(alloc, operand)?))
        }
    }
}

/// The second word of a name, if there is one.
fn word_of(second: &Option<Text>) -> Option<&str>
    ensures { option_copied result ≡ second.now }
{
    match second {
        Some(word) => Some(word.as_str()),
        None => None,
    }
}

/// The values of a print with their names replaced, from left to right.
fn check_values(
    alloc: Global,
    values: &[tree::Expr],
    scope: &Scope,
) -> Result<Vec<Expr>, CheckFault>
    ensures answer { Gives (λ xs. xs.items) result (all_of (map (expr_of (context_of scope.now)) values.now)) }
    ensures fits { IfOk result (λ xs. IsTrue (list_all (expr_fits (reach_in (context_of scope.now))) xs.items)) }
    ensures count { IfOk result (λ xs. length xs.items ≡ length values.now) }
{
    let mut checked = Vec::new(alloc);
    for value in values {
        let value = match check_expr(alloc, value, scope) {
            Ok(value) => value,
            Err(fault) => return Err(fault),
        };
        checked.push(value)?;
    }
    Ok(checked)
}

/// Statements in turn, with their names replaced.
#[cycle(body)]
fn check_body(alloc: Global, body: &[tree::Stmt], scope: &Scope) -> Result<List<Stmt>, CheckFault>
    ensures answer { Gives (λ xs. xs) result (body_of (context_of scope.now) (statements_of body.now)) }
    ensures fits { IfOk result (λ xs. IsTrue (fits (reach_in (context_of scope.now)) xs)) }
{
    let mut checked = Vec::new(alloc);
    for stmt in body {
        let stmt = match check_stmt(alloc, stmt, scope) {
            Ok(stmt) => stmt,
            Err(fault) => return Err(fault),
        };
        checked.push(stmt)?;
    }
    Ok(List::new(checked))
}

/// The tree of a statement with its names replaced.
#[cycle(body)]
fn check_stmt(alloc: Global, stmt: &tree::Stmt, scope: &Scope) -> Result<Stmt, CheckFault>
    ensures answer { Gives (λ x. x) result (stmt_of (context_of scope.now) (statement_of stmt.now)) }
    ensures fits { IfOk result (λ x. IsTrue (stmt_fits (reach_in (context_of scope.now)) x)) }
{
    match stmt {
        tree::Stmt::Assign(name, expr) => {
            match scope.slot(name.first.as_str(), word_of(&name.second)) {
                Ok(slot) => Ok(Stmt::Assign(slot, check_expr(alloc, expr, scope)?)),
                Err(cause) => Err(cause.at(name.at)),
            }
        }
        tree::Stmt::Trigger(trigger, word) => match scope.vertex(word.text.as_str()) {
            Ok(vertex) => Ok(Stmt::Trigger(*trigger, vertex)),
            Err(cause) => Err(cause.at(word.at)),
        },
        tree::Stmt::Print(values) => {
            let checked = check_values(alloc, values.items.as_slice(), scope)?;
            Ok(Stmt::Print(Values::new(checked)))
        }
        tree::Stmt::If(test, body) => {
            let test = check_expr(alloc, test, scope)?;
            Ok(Stmt::If(test, check_body(alloc, body.as_slice(), scope)?))
        }
        tree::Stmt::IfElse(test, body, other) => {
            let test = check_expr(alloc, test, scope)?;
            let body = check_body(alloc, body.as_slice(), scope)?;
            Ok(Stmt::IfElse(test, body, check_body(alloc, other.as_slice(), scope)?))
        }
    }
}
