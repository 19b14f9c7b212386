ghost use Rattle.std.specs.Prelude.{◌≡◌};
ghost use Rattle.pe_parse.specs.Lexemes.{kind_at, offset_at};
ghost use Rattle.pe_parse.specs.Grammar.{sign_of};
ghost use Rattle.pe_parse.specs.Reading.{seen, size_of, Needed, sign_at};

use crate::fault::ParseFault;
use crate::rank::Rank;
use crate::tree::Sign;
use pe_lex::{Token, TokenKind};
use std::alloc::Global;

/// A text and its tokens, from which a body is read.
#[derive(Clone, Copy)]
pub(crate) struct Reader<'a> {
    pub(crate) alloc: Global,
    pub(crate) text: &'a [u8],
    pub(crate) tokens: &'a [Token],
}

impl<'a> Reader<'a> {
    /// The kind of a token by its number, or `None` behind the last one.
    pub(crate) fn kind(&self, at: usize) -> Option<TokenKind>
        ensures { result ≡ kind_at (seen self.now) at }
    {
        match self.tokens.get(at) {
            Some(token) => Some(token.kind),
            None => None,
        }
    }

    /// Where a token begins, and behind the last one the length of the text.
    pub(crate) fn offset(&self, at: usize) -> u64
        ensures { result ≡ offset_at (size_of self.now) (seen self.now) at }
    {
        match self.tokens.get(at) {
            Some(token) => token.start,
            None => self.text.len() as u64,
        }
    }

    /// The number of the token behind one of this kind, which has to come.
    pub(crate) fn needs(&self, kind: TokenKind, at: usize) -> Result<usize, ParseFault>
        ensures { Needed (size_of self.now) (seen self.now) kind at result }
    {
        match self.kind(at) {
            Some(found) if found == kind => Ok(at + 1),
            _ => Err(ParseFault::Syntax {
                at: self.offset(at),
            }),
        }
    }

    /// The sign of this rank that a token is, if it is one.
    pub(crate) fn sign(&self, rank: Rank, at: usize) -> Option<Sign>
        ensures { result ≡ sign_at rank (seen self.now) at }
    {
        let sign = between(self.kind(at)?)?;
        if sign.rank() == rank {
            Some(sign)
        } else {
            None
        }
    }
}

fn between(kind: TokenKind) -> Option<Sign>
    ensures { result ≡ sign_of kind }
{
    match kind {
        TokenKind::Or => Some(Sign::Or),
        TokenKind::And => Some(Sign::And),
        TokenKind::Less => Some(Sign::Less),
        TokenKind::LessOrEqual => Some(Sign::LessOrEqual),
        TokenKind::Greater => Some(Sign::Greater),
        TokenKind::GreaterOrEqual => Some(Sign::GreaterOrEqual),
        TokenKind::Equal => Some(Sign::Equal),
        TokenKind::NotEqual => Some(Sign::NotEqual),
        TokenKind::Plus => Some(Sign::Plus),
        TokenKind::Minus => Some(Sign::Minus),
        TokenKind::Star => Some(Sign::Times),
        TokenKind::Slash => Some(Sign::Over),
        TokenKind::Percent => Some(Sign::Modulo),
        _ => None,
    }
}
