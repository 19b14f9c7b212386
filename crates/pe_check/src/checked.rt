ghost use Rattle.std.specs.Prelude.{◌≡◌, ◌≤◌, length};

use pe_base::{Boxed, List};
use pe_parse::{Choice, Prefix, Sign, Trigger};
use std::marker::Model;

/// The statements of a body whose names are resolved, in order.
pub type Checked = List<Stmt>;

/// Which vertex a name speaks of.
#[derive(Clone, Copy, Debug, PartialEq, Eq)]
pub enum VertexName {
    /// The event's vertex, `v`.
    Own,
    /// A corner of the event's cell by its number, as `v3`.
    Corner(u8),
    /// A corner of the parent cell by its number, as `p3`.
    ParentCorner(u8),
}

/// A number that a body may assign, by the number of its field, 0 to 7.
#[derive(Clone, Copy, Debug, PartialEq, Eq)]
pub enum Slot {
    /// A number of the whole grid, as `global.sum`.
    Global(u8),
    /// A number of a vertex, as `v.u`.
    Vertex(VertexName, u8),
    /// A number of the event's cell, as `cell.c`.
    Cell(u8),
    /// A number of the parent cell, as `parent.c`.
    Parent(u8),
}

/// What a name in an expression stands for.
#[derive(Clone, Copy, Debug, PartialEq, Eq)]
pub enum Name {
    /// The number of the traversal, `t`.
    Traversal,
    /// The level of the place, `level`.
    Level,
    /// The position of the place on an axis, as `x0`.
    Axis(u8),
    /// The number of a vertex's state, as `v.state`.
    State(VertexName),
    /// The number of a vertex's kind, as `v.kind`.
    Kind(VertexName),
    /// A number that may be assigned.
    Slot(Slot),
}

/// An expression.
#[derive(Debug, Drop)]
pub enum Expr {
    Number(i64),
    Name(Name),
    Unary(Prefix, Boxed<Expr>),
    /// A chain: its first operand, and each sign with the operand behind it, in order.
    Chain(Boxed<Expr>, List<(Sign, Expr)>),
    /// `min` or `max` of two values.
    Extreme(Choice, Boxed<Expr>, Boxed<Expr>),
    /// `abs` of a value.
    Abs(Boxed<Expr>),
}

/// The values of a print, of which there are one to eight. Contracts see them as a list.
#[derive(Debug, Drop)]
pub struct Values {
    items: Vec<Expr>,
}

impl Model for Values {
    ghost use Rattle.std.specs.Prelude.{List, length, ◌≤◌};
    ghost use Rattle.std.specs.Coded.{codes};
    ghost use Rattle.pe_check.specs.declared.checked.Expr.{Expr};
    ghost use Rattle.pe_check.specs.contracts.checked.Expr as e;

    ghost Value = { List Expr };

    ghost coded = { Prim.hlevel (codes, e.the_row.coded) };

    ghost view = { λ values. values.items.items };

    ghost invariant = { λ values. (1 ≤ length values.items.items) × (length values.items.items ≤ 8) };
}

impl Values {
    /// The values of a vector, which are kept as they are.
    pub fn new(items: Vec<Expr>) -> Values
        requires some { 1 ≤ length items.items }
        requires few { length items.items ≤ 8 }
        ensures { result ≡ items.items }
    {
        Values { items }
    }

    /// The values, from left to right.
    pub fn as_slice(&self) -> &[Expr]
        ensures value { result.now ≡ self.now }
        ensures some { 1 ≤ length result.now }
        ensures few { length result.now ≤ 8 }
    {
        self.items.as_slice()
    }
}

/// A statement.
#[derive(Debug, Drop)]
pub enum Stmt {
    /// `name = expr;`
    Assign(Slot, Expr),
    /// `refine word;` or `erase word;`
    Trigger(Trigger, VertexName),
    /// `print expr, ..;`
    Print(Values),
    /// `if expr { .. }`
    If(Expr, List<Stmt>),
    /// `if expr { .. } else { .. }`
    IfElse(Expr, List<Stmt>, List<Stmt>),
}
