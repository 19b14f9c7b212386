ghost use Rattle.std.specs.Prelude.{◌≤◌, length};

use pe_base::{Boxed, List, Text};

/// The statements of a body, in order.
pub type Body = List<Stmt>;

/// A word behind `refine` or `erase`, and the offset of its first byte.
#[derive(Debug, Drop)]
pub struct Word {
    pub text: Text,
    pub at: u64,
}

/// A name of one word or of two with a dot between them, and the offset of the first word's first byte.
#[derive(Debug, Drop)]
pub struct Name {
    pub first: Text,
    pub second: Option<Text>,
    pub at: u64,
}

/// A sign before its operand.
#[derive(Clone, Copy, Debug, PartialEq, Eq)]
pub enum Prefix {
    /// `-`
    Minus,
    /// `!`
    Not,
}

/// A sign between two operands.
#[derive(Clone, Copy, Debug, PartialEq, Eq)]
pub enum Sign {
    /// `||`
    Or,
    /// `&&`
    And,
    /// `<`
    Less,
    /// `<=`
    LessOrEqual,
    /// `>`
    Greater,
    /// `>=`
    GreaterOrEqual,
    /// `==`
    Equal,
    /// `!=`
    NotEqual,
    /// `+`
    Plus,
    /// `-`
    Minus,
    /// `*`
    Times,
    /// `/`
    Over,
    /// `%`
    Modulo,
}

/// Which of two values is taken.
#[derive(Clone, Copy, Debug, PartialEq, Eq)]
pub enum Choice {
    /// `min`
    Min,
    /// `max`
    Max,
}

/// An expression. Parentheses leave no trace in it.
#[derive(Debug, Drop)]
pub enum Expr {
    /// A number from 0 to 9223372036854775807.
    Number(i64),
    Name(Name),
    Unary(Prefix, Boxed<Expr>),
    /// A chain: its first operand, and each sign with the operand behind it, in order. The signs of
    /// a chain that is read bind equally: all are `||`, or all are `&&`, or there is one comparison,
    /// or each is `+` or `-`, or each is `*`, `/` or `%`.
    Chain(Boxed<Expr>, List<(Sign, Expr)>),
    /// `min` or `max` of two values.
    Extreme(Choice, Boxed<Expr>, Boxed<Expr>),
    /// `abs` of a value.
    Abs(Boxed<Expr>),
}

/// The values of a print, of which there are one to eight.
#[derive(Debug, Drop)]
pub struct Values {
    pub items: List<Expr>,
    ghost some: { 1 ≤ length items },
    ghost few: { length items ≤ 8 },
}

/// Whether a vertex is triggered for refinement or for erasing.
#[derive(Clone, Copy, Debug, PartialEq, Eq)]
pub enum Trigger {
    /// `refine`
    Refine,
    /// `erase`
    Erase,
}

/// A statement.
#[derive(Debug, Drop)]
pub enum Stmt {
    /// `name = expr;`
    Assign(Name, Expr),
    /// `refine word;` or `erase word;`
    Trigger(Trigger, Word),
    /// `print expr, ..;`
    Print(Values),
    /// `if expr { .. }`
    If(Expr, List<Stmt>),
    /// `if expr { .. } else { .. }`
    IfElse(Expr, List<Stmt>, List<Stmt>),
}
