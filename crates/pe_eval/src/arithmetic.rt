ghost use Rattle.std.specs.Prelude.{◌≡◌, ℤ, FitsSigned, Option, Ok};
ghost use Rattle.std.specs.Int.{w64};
ghost use Rattle.std.specs.Option.{SomeIff};
ghost use Rattle.pe_eval.specs.Arithmetic as exact;

use crate::fault::Fault;
use pe_parse::{Choice, Prefix, Sign};

/// Whether the left operand decides alone.
pub(crate) fn is_decided(sign: Sign, a: i64) -> bool
    ensures { result ≡ exact.is_decided sign a }
{
    match sign {
        Sign::Or => a != 0,
        Sign::And => a == 0,
        _ => false,
    }
}

/// The value of two operands with a sign between them, of which the left one does not decide.
pub(crate) fn combined(sign: Sign, a: i64, b: i64) -> Result<i64, Fault>
    ensures { result ≡ exact.combined sign a b }
{
    match sign {
        Sign::Or | Sign::And => Ok(truth(b != 0)),
        Sign::Less => Ok(truth(a < b)),
        Sign::LessOrEqual => Ok(truth(a <= b)),
        Sign::Greater => Ok(truth(a > b)),
        Sign::GreaterOrEqual => Ok(truth(a >= b)),
        Sign::Equal => Ok(truth(a == b)),
        Sign::NotEqual => Ok(truth(a != b)),
        Sign::Plus => a.checked_add(b).ok_or(Fault::Overflow),
        Sign::Minus => a.checked_sub(b).ok_or(Fault::Overflow),
        Sign::Times => a.checked_mul(b).ok_or(Fault::Overflow),
        Sign::Over => quotient(a, b),
        Sign::Modulo => remainder(a, b),
    }
}

/// The value of an operand behind a sign.
pub(crate) fn prefixed(prefix: Prefix, a: i64) -> Result<i64, Fault>
    ensures { result ≡ exact.prefixed prefix a }
{
    match prefix {
        Prefix::Minus => a.checked_neg().ok_or(Fault::Overflow),
        Prefix::Not => Ok(truth(a == 0)),
    }
}

/// The less or the greater of two values.
pub(crate) fn extreme(choice: Choice, a: i64, b: i64) -> i64
    ensures { result ≡ exact.extreme choice a b }
{
    match choice {
        Choice::Min => a.min(b),
        Choice::Max => a.max(b),
    }
}

/// How far a value is from 0.
pub(crate) fn absolute(a: i64) -> Result<i64, Fault>
    ensures { result ≡ exact.absolute a }
{
    a.checked_abs().ok_or(Fault::Overflow)
}

/// 1 or 0.
pub(crate) fn truth(holds: bool) -> i64
    ensures { result ≡ exact.truth holds }
{
    if holds { 1 } else { 0 }
}

/// The quotient, cut off toward zero.
fn quotient(a: i64, b: i64) -> Result<i64, Fault>
    ensures { result ≡ exact.quotient a b }
{
    if b == 0 {
        Err(Fault::Division)
    } else {
        a.checked_div(b).ok_or(Fault::Overflow)
    }
}

/// What the quotient leaves.
fn remainder(a: i64, b: i64) -> Result<i64, Fault>
    ensures { result ≡ exact.remainder a b }
{
    if b == 0 {
        Err(Fault::Division)
    } else {
        a.checked_rem(b).ok_or(Fault::Overflow)
    }
}
