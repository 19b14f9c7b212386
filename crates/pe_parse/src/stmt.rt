ghost use Rattle.std.specs.Prelude.{◌≡◌, ◌≤◌, Some, [], ◌∷◌, length};
ghost use Rattle.pe_lex.specs.declared.token.TokenKind.TheVariants as kind;
ghost use Rattle.pe_lex.specs.Spans.{AreTokensOf};
ghost use Rattle.pe_parse.specs.Lexemes.{kind_at};
ghost use Rattle.pe_parse.specs.Statements.{statements_of};
ghost use Rattle.pe_parse.specs.Grammar.{All, trigger_kind};
ghost use Rattle.pe_parse.specs.Frames.{Sequence};
ghost use Rattle.pe_parse.specs.Reading.{seen, size_of, ReadsAs, ReadsValues, ReadsBlock, ReadsStatement, MayRead};

use crate::expr::{DEEPEST, Found};
use crate::fault::ParseFault;
use crate::rank::Rank;
use crate::reader::Reader;
use crate::tree::{Stmt, Trigger, Values, Word};
use pe_base::List;
use pe_lex::TokenKind;

/// How many values a print may have.
const MOST_VALUES: usize = 8;

impl<'a> Reader<'a> {
    /// The values of a print, from the first on.
    fn values(&self, at: usize, depth: usize) -> Found<Values>
        requires tokens { AreTokensOf self.now.text.now self.now.tokens.now }
        requires shallow { depth ≤ 64 }
        ensures { ReadsValues (size_of self.now) (seen self.now) depth at result }
    {
        let (first, mut next) = match self.chain(Rank::Disjunction, at, depth) {
            Ok(found) => found,
            Err(fault) => return Err(fault),
        };
        let mut items = Vec::new(self.alloc);
        if items.push(first).is_err() {
            return Err(ParseFault::Memory);
        }
        while let Ok(behind) = self.needs(TokenKind::Comma, next) {
            if items.len() >= MOST_VALUES {
                return Err(ParseFault::TooMany {
                    at: self.offset(next),
                });
            }
            let (value, after) = match self.chain(Rank::Disjunction, behind, depth) {
                Ok(found) => found,
                Err(fault) => return Err(fault),
            };
            if items.push(value).is_err() {
                return Err(ParseFault::Memory);
            }
            next = after;
        }
        Ok((
            Values {
                items: List::new(items),
            },
            next,
        ))
    }

    fn print(&self, at: usize, depth: usize) -> Found<Stmt>
        requires tokens { AreTokensOf self.now.text.now self.now.tokens.now }
        requires shallow { depth ≤ 64 }
        requires kind { kind_at (seen self.now) at ≡ Some kind.Print }
        ensures { ReadsStatement (size_of self.now) (seen self.now) depth at result }
    {
        let (values, behind) = match self.values(at + 1, depth) {
            Ok(found) => found,
            Err(fault) => return Err(fault),
        };
        match self.needs(TokenKind::Semicolon, behind) {
            Ok(next) => Ok((Stmt::Print(values), next)),
            Err(fault) => Err(fault),
        }
    }

    fn assign(&self, at: usize, depth: usize) -> Found<Stmt>
        requires tokens { AreTokensOf self.now.text.now self.now.tokens.now }
        requires shallow { depth ≤ 64 }
        requires kind { kind_at (seen self.now) at ≡ Some kind.Word }
        ensures { ReadsStatement (size_of self.now) (seen self.now) depth at result }
    {
        let (name, behind) = match self.name(at) {
            Ok(found) => found,
            Err(fault) => return Err(fault),
        };
        let inside = match self.needs(TokenKind::Assign, behind) {
            Ok(inside) => inside,
            Err(fault) => return Err(fault),
        };
        match self.closed(TokenKind::Semicolon, inside, depth) {
            Ok((value, next)) => Ok((Stmt::Assign(name, value), next)),
            Err(fault) => Err(fault),
        }
    }

    fn trigger_statement(&self, trigger: Trigger, at: usize, depth: usize) -> Found<Stmt>
        requires tokens { AreTokensOf self.now.text.now self.now.tokens.now }
        requires shallow { depth ≤ 64 }
        requires kind { kind_at (seen self.now) at ≡ Some (trigger_kind trigger) }
        ensures { ReadsStatement (size_of self.now) (seen self.now) depth at result }
    {
        let word = at + 1;
        let behind = match self.needs(TokenKind::Word, word) {
            Ok(behind) => behind,
            Err(fault) => return Err(fault),
        };
        let next = match self.needs(TokenKind::Semicolon, behind) {
            Ok(next) => next,
            Err(fault) => return Err(fault),
        };
        let start = self.offset(word);
        match self.word(word) {
            Ok(text) => Ok((Stmt::Trigger(trigger, Word { text, at: start }), next)),
            Err(fault) => Err(fault),
        }
    }

    /// Statements in braces.
    #[cycle(body)]
    fn block(&self, at: usize, depth: usize) -> Found<List<Stmt>>
        requires tokens { AreTokensOf self.now.text.now self.now.tokens.now }
        requires shallow { depth ≤ 64 }
        ensures { ReadsBlock (size_of self.now) (seen self.now) depth at result }
    {
        let inside = match self.needs(TokenKind::OpenCurly, at) {
            Ok(inside) => inside,
            Err(fault) => return Err(fault),
        };
        if depth >= DEEPEST {
            return Err(ParseFault::TooDeep {
                at: self.offset(at),
            });
        }
        let (statements, behind) = match self.body(inside, depth + 1) {
            Ok(found) => found,
            Err(fault) => return Err(fault),
        };
        match self.needs(TokenKind::CloseCurly, behind) {
            Ok(next) => Ok((statements, next)),
            Err(fault) => Err(fault),
        }
    }

    #[cycle(body)]
    fn choose(&self, at: usize, depth: usize) -> Found<Stmt>
        requires tokens { AreTokensOf self.now.text.now self.now.tokens.now }
        requires shallow { depth ≤ 64 }
        requires kind { kind_at (seen self.now) at ≡ Some kind.If }
        ensures { ReadsStatement (size_of self.now) (seen self.now) depth at result }
    {
        let (condition, behind) = match self.chain(Rank::Disjunction, at + 1, depth) {
            Ok(found) => found,
            Err(fault) => return Err(fault),
        };
        let (body, after) = match self.block(behind, depth) {
            Ok(found) => found,
            Err(fault) => return Err(fault),
        };
        let other = match self.needs(TokenKind::Else, after) {
            Ok(other) => other,
            Err(_) => return Ok((Stmt::If(condition, body), after)),
        };
        match self.block(other, depth) {
            Ok((otherwise, next)) => Ok((Stmt::IfElse(condition, body, otherwise), next)),
            Err(fault) => Err(fault),
        }
    }

    /// The statement that begins here, or `None` where none does.
    #[cycle(body)]
    fn statement(&self, at: usize, depth: usize) -> Result<Option<(Stmt, usize)>, ParseFault>
        requires tokens { AreTokensOf self.now.text.now self.now.tokens.now }
        requires shallow { depth ≤ 64 }
        ensures { MayRead (size_of self.now) (seen self.now) depth at result }
    {
        let Some(kind) = self.kind(at) else {
            return Ok(None);
        };
        let found = match kind {
            TokenKind::Word => self.assign(at, depth),
            TokenKind::Refine => self.trigger_statement(Trigger::Refine, at, depth),
            TokenKind::Erase => self.trigger_statement(Trigger::Erase, at, depth),
            TokenKind::Print => self.print(at, depth),
            TokenKind::If => self.choose(at, depth),
            _ => return Ok(None),
        };
        match found {
            Ok(found) => Ok(Some(found)),
            Err(fault) => Err(fault),
        }
    }

    /// Statements, as many as follow.
    #[cycle(body)]
    pub(crate) fn body(&self, at: usize, depth: usize) -> Found<List<Stmt>>
        requires tokens { AreTokensOf self.now.text.now self.now.tokens.now }
        requires shallow { depth ≤ 64 }
        requires within { at ≤ length self.now.tokens.now }
        ensures { ReadsAs (λ body. All (statements_of body)) (size_of self.now) (seen self.now) (Sequence ∷ []) depth at result }
    {
        let mut statements = Vec::new(self.alloc);
        let mut next = at;
        loop {
            let (statement, behind) = match self.statement(next, depth) {
                Ok(Some(found)) => found,
                Ok(None) => return Ok((List::new(statements), next)),
                Err(fault) => return Err(fault),
            };
            if statements.push(statement).is_err() {
                return Err(ParseFault::Memory);
            }
            next = behind;
        }
    }
}
