//! The body of an event, from its text.
ghost use Rattle.std.specs.Prelude.{◌≡◌, IfOk, IsTrue};
ghost use Rattle.pe_check.specs.FieldNames.{names_view};
ghost use Rattle.pe_check.specs.Fits.{fits};
ghost use Rattle.pe_check.specs.Resolving.{context_at, reach_in};
ghost use Rattle.pe_scene.specs.BodyTexts.{lex_fault, parse_fault, check_fault, body_text};
ghost use Rattle.pe_scene.specs.Faults.{Gives};

use crate::fault::{BodyCause, SceneFault};
use pe_base::{Dim, Event, Names};
use pe_check::{CheckFault, Checked, check};
use pe_lex::{LexFault, lex};
use pe_parse::{ParseFault, parse};
use std::alloc::Global;

/// The fault of the tokens of a body.
fn lex_fault(event: Event, fault: LexFault) -> SceneFault
    ensures { result ≡ lex_fault event fault }
{
    match fault {
        LexFault::Character { at } => SceneFault::Body {
            event,
            at,
            cause: BodyCause::Character,
        },
        LexFault::Memory => SceneFault::Memory,
    }
}

/// The fault of the tree of a body.
fn parse_fault(event: Event, fault: ParseFault) -> SceneFault
    ensures { result ≡ parse_fault event fault }
{
    let (at, cause) = match fault {
        ParseFault::Syntax { at } => (at, BodyCause::Syntax),
        ParseFault::TooDeep { at } => (at, BodyCause::TooDeep),
        ParseFault::TooMany { at } => (at, BodyCause::TooMany),
        ParseFault::Literal { at } => (at, BodyCause::Literal),
        ParseFault::Memory => return SceneFault::Memory,
    };
    SceneFault::Body { event, at, cause }
}

/// The fault of the names of a body.
fn check_fault(event: Event, fault: CheckFault) -> SceneFault
    ensures { result ≡ check_fault event fault }
{
    let (at, cause) = match fault {
        CheckFault::UnknownName { at } => (at, BodyCause::UnknownName),
        CheckFault::NotHere { at } => (at, BodyCause::NotHere),
        CheckFault::Corner { at } => (at, BodyCause::Corner),
        CheckFault::ReadOnly { at } => (at, BodyCause::ReadOnly),
        CheckFault::Memory => return SceneFault::Memory,
    };
    SceneFault::Body { event, at, cause }
}

/// The body of an event, from its text.
pub(crate) fn read_body(
    alloc: Global,
    text: &str,
    event: Event,
    names: &Names,
    dim: Dim,
) -> Result<Checked, SceneFault>
    ensures gives { Gives (λ body. body) result (body_text (context_at event dim (names_view names.now)) event text.now) }
    ensures fits { IfOk result (λ body. IsTrue (fits (reach_in (context_at event dim (names_view names.now))) body)) }
{
    let tokens = match lex(alloc, text) {
        Ok(tokens) => tokens,
        Err(fault) => return Err(lex_fault(event, fault)),
    };
    let body = match parse(alloc, text, tokens.as_slice()) {
        Ok(body) => body,
        Err(fault) => return Err(parse_fault(event, fault)),
    };
    match check(alloc, body, event, names, dim) {
        Ok(body) => Ok(body),
        Err(fault) => Err(check_fault(event, fault)),
    }
}
