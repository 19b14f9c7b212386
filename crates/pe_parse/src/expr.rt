ghost use Rattle.std.specs.Prelude.{◌≡◌, ◌≢◌, ◌≤◌, ℕ, Some, [], ◌∷◌, List, false, MatchResult};
ghost use Rattle.pe_lex.specs.declared.token.TokenKind.TheVariants as kind;
ghost use Rattle.pe_lex.specs.Spans.{AreTokensOf};
ghost use Rattle.pe_parse.specs.declared.rank.Rank.TheVariants as ranks;
ghost use Rattle.pe_parse.specs.declared.fault.ParseFault.TheVariants.{Memory};
ghost use Rattle.pe_parse.specs.declared.tree.Expr.TheVariants as expr;
ghost use Rattle.pe_parse.specs.Lexemes.{kind_at};
ghost use Rattle.pe_parse.specs.Grammar.{Chained, Operand, operand_of, prefix_kind, choice_kind};
ghost use Rattle.pe_parse.specs.Frames.{Value, operand_frames, chain_frames};
ghost use Rattle.pe_parse.specs.Faults.{is_too_large};
ghost use Rattle.pe_parse.specs.Reading.{seen, size_of, ReadsAs, ReadsName, ReadsClosed};

use crate::fault::ParseFault;
use crate::rank::Rank;
use crate::reader::Reader;
use crate::tree::{Choice, Expr, Name, Prefix};
use pe_base::{Boxed, List};
use pe_lex::TokenKind;

/// How deep parentheses, braces and signs before operands may nest.
pub(crate) const DEEPEST: usize = 64;

/// How many signs a chain may have.
const MOST_LINKS: usize = 63;

/// What was read, and the number of the token behind it.
pub(crate) type Found<T> = Result<(T, usize), ParseFault>;

impl<'a> Reader<'a> {
    /// The name at a word.
    pub(crate) fn name(&self, at: usize) -> Found<Name>
        requires tokens { AreTokensOf self.now.text.now self.now.tokens.now }
        requires word { kind_at (seen self.now) at ≡ Some kind.Word }
        ensures { ReadsName (size_of self.now) (seen self.now) at result }
    {
        let start = self.offset(at);
        let first = match self.word(at) {
            Ok(text) => text,
            Err(fault) => return Err(fault),
        };
        let behind = match self.needs(TokenKind::Dot, at + 1) {
            Ok(behind) => behind,
            Err(_) => return Ok((
                Name {
                    first,
                    second: None,
                    at: start,
                },
                at + 1,
            )),
        };
        let next = match self.needs(TokenKind::Word, behind) {
            Ok(next) => next,
            Err(fault) => return Err(fault),
        };
        match self.word(behind) {
            Ok(text) => Ok((
                Name {
                    first,
                    second: Some(text),
                    at: start,
                },
                next,
            )),
            Err(fault) => Err(fault),
        }
    }

    fn boxed(&self, value: Expr) -> Result<Boxed<Expr>, ParseFault>
        ensures { MatchResult result (λ b. b ≡ value) (λ fault. fault ≡ Memory) }
    {
        match Boxed::new(self.alloc, value) {
            Ok(boxed) => Ok(boxed),
            Err(_) => Err(ParseFault::Memory),
        }
    }

    fn number(&self, at: usize) -> Found<Expr>
        requires tokens { AreTokensOf self.now.text.now self.now.tokens.now }
        requires kind { kind_at (seen self.now) at ≡ Some kind.Number }
        ensures { (depth : ℕ) → depth ≤ 64 → ReadsAs Operand (size_of self.now) (seen self.now) (Value ∷ []) depth at result }
    {
        match self.literal(at) {
            Some(value) => Ok((Expr::Number(value), at + 1)),
            None => Err(ParseFault::Literal {
                at: self.offset(at),
            }),
        }
    }

    fn named(&self, at: usize) -> Found<Expr>
        requires tokens { AreTokensOf self.now.text.now self.now.tokens.now }
        requires kind { kind_at (seen self.now) at ≡ Some kind.Word }
        ensures { (depth : ℕ) → depth ≤ 64 → ReadsAs Operand (size_of self.now) (seen self.now) (Value ∷ []) depth at result }
    {
        match self.name(at) {
            Ok((name, next)) => Ok((Expr::Name(name), next)),
            Err(fault) => Err(fault),
        }
    }

    /// An expression, and the token that has to close it.
    #[cycle(expr)]
    pub(crate) fn closed(&self, closing: TokenKind, at: usize, depth: usize) -> Found<Expr>
        requires tokens { AreTokensOf self.now.text.now self.now.tokens.now }
        requires shallow { depth ≤ 64 }
        requires closes { (bytes : List ℕ) → is_too_large closing bytes ≡ false }
        ensures { ReadsClosed (size_of self.now) (seen self.now) closing depth at result }
    {
        let (value, behind) = match self.chain(Rank::Disjunction, at, depth) {
            Ok(found) => found,
            Err(fault) => return Err(fault),
        };
        match self.needs(closing, behind) {
            Ok(next) => Ok((value, next)),
            Err(fault) => Err(fault),
        }
    }

    #[cycle(expr)]
    fn group(&self, at: usize, depth: usize) -> Found<Expr>
        requires tokens { AreTokensOf self.now.text.now self.now.tokens.now }
        requires shallow { depth ≤ 64 }
        requires kind { kind_at (seen self.now) at ≡ Some kind.OpenRound }
        ensures { ReadsAs Operand (size_of self.now) (seen self.now) (Value ∷ []) depth at result }
    {
        let inside = at + 1;
        if depth >= DEEPEST {
            return Err(ParseFault::TooDeep {
                at: self.offset(at),
            });
        }
        self.closed(TokenKind::CloseRound, inside, depth + 1)
    }

    #[cycle(expr)]
    fn prefixed(&self, prefix: Prefix, at: usize, depth: usize) -> Found<Expr>
        requires tokens { AreTokensOf self.now.text.now self.now.tokens.now }
        requires shallow { depth ≤ 64 }
        requires kind { kind_at (seen self.now) at ≡ Some (prefix_kind prefix) }
        ensures { ReadsAs Operand (size_of self.now) (seen self.now) (Value ∷ []) depth at result }
    {
        let behind = at + 1;
        if depth >= DEEPEST {
            return Err(ParseFault::TooDeep {
                at: self.offset(at),
            });
        }
        let (operand, next) = match self.operand(behind, depth + 1) {
            Ok(found) => found,
            Err(fault) => return Err(fault),
        };
        match self.boxed(operand) {
            Ok(operand) => Ok((Expr::Unary(prefix, operand), next)),
            Err(fault) => Err(fault),
        }
    }

    #[cycle(expr)]
    fn extreme(&self, choice: Choice, at: usize, depth: usize) -> Found<Expr>
        requires tokens { AreTokensOf self.now.text.now self.now.tokens.now }
        requires shallow { depth ≤ 64 }
        requires kind { kind_at (seen self.now) at ≡ Some (choice_kind choice) }
        ensures { ReadsAs Operand (size_of self.now) (seen self.now) (Value ∷ []) depth at result }
    {
        let inside = match self.needs(TokenKind::OpenRound, at + 1) {
            Ok(inside) => inside,
            Err(fault) => return Err(fault),
        };
        if depth >= DEEPEST {
            return Err(ParseFault::TooDeep {
                at: self.offset(at + 1),
            });
        }
        let (first, behind) = match self.closed(TokenKind::Comma, inside, depth + 1) {
            Ok(found) => found,
            Err(fault) => return Err(fault),
        };
        let (second, next) = match self.closed(TokenKind::CloseRound, behind, depth + 1) {
            Ok(found) => found,
            Err(fault) => return Err(fault),
        };
        match (self.boxed(first), self.boxed(second)) {
            (Ok(first), Ok(second)) => Ok((Expr::Extreme(choice, first, second), next)),
            _ => Err(ParseFault::Memory),
        }
    }

    #[cycle(expr)]
    fn absolute(&self, at: usize, depth: usize) -> Found<Expr>
        requires tokens { AreTokensOf self.now.text.now self.now.tokens.now }
        requires shallow { depth ≤ 64 }
        requires kind { kind_at (seen self.now) at ≡ Some kind.Abs }
        ensures { ReadsAs Operand (size_of self.now) (seen self.now) (Value ∷ []) depth at result }
    {
        let inside = match self.needs(TokenKind::OpenRound, at + 1) {
            Ok(inside) => inside,
            Err(fault) => return Err(fault),
        };
        if depth >= DEEPEST {
            return Err(ParseFault::TooDeep {
                at: self.offset(at + 1),
            });
        }
        let (value, next) = match self.closed(TokenKind::CloseRound, inside, depth + 1) {
            Ok(found) => found,
            Err(fault) => return Err(fault),
        };
        match self.boxed(value) {
            Ok(value) => Ok((Expr::Abs(value), next)),
            Err(fault) => Err(fault),
        }
    }

    #[cycle(expr)]
    fn operand(&self, at: usize, depth: usize) -> Found<Expr>
        requires tokens { AreTokensOf self.now.text.now self.now.tokens.now }
        requires shallow { depth ≤ 64 }
        ensures { ReadsAs Operand (size_of self.now) (seen self.now) (Value ∷ []) depth at result }
    {
        let Some(kind) = self.kind(at) else {
            return Err(ParseFault::Syntax {
                at: self.offset(at),
            });
        };
        match kind {
            TokenKind::Number => self.number(at),
            TokenKind::Word => self.named(at),
            TokenKind::OpenRound => self.group(at, depth),
            TokenKind::Min => self.extreme(Choice::Min, at, depth),
            TokenKind::Max => self.extreme(Choice::Max, at, depth),
            TokenKind::Abs => self.absolute(at, depth),
            TokenKind::Minus => self.prefixed(Prefix::Minus, at, depth),
            TokenKind::Not => self.prefixed(Prefix::Not, at, depth),
            _ => Err(ParseFault::Syntax {
                at: self.offset(at),
            }),
        }
    }

    /// An operand of a chain of this rank.
    #[cycle(expr)]
    fn tighter(&self, rank: Rank, at: usize, depth: usize) -> Found<Expr>
        requires tokens { AreTokensOf self.now.text.now self.now.tokens.now }
        requires shallow { depth ≤ 64 }
        ensures { ReadsAs (operand_of rank) (size_of self.now) (seen self.now) (operand_frames rank) depth at result }
    {
        match rank {
            Rank::Disjunction => self.chain(Rank::Conjunction, at, depth),
            Rank::Conjunction => self.comparison(at, depth),
            Rank::Comparison => self.chain(Rank::Sum, at, depth),
            Rank::Sum => self.chain(Rank::Product, at, depth),
            Rank::Product => self.operand(at, depth),
        }
    }

    #[cycle(expr)]
    fn comparison(&self, at: usize, depth: usize) -> Found<Expr>
        requires tokens { AreTokensOf self.now.text.now self.now.tokens.now }
        requires shallow { depth ≤ 64 }
        ensures { ReadsAs (Chained ranks.Comparison) (size_of self.now) (seen self.now) (chain_frames ranks.Comparison) depth at result }
    {
        let (first, behind) = match self.chain(Rank::Sum, at, depth) {
            Ok(found) => found,
            Err(fault) => return Err(fault),
        };
        let Some(sign) = self.sign(Rank::Comparison, behind) else {
            return Ok((first, behind));
        };
        let (second, next) = match self.chain(Rank::Sum, behind + 1, depth) {
            Ok(found) => found,
            Err(fault) => return Err(fault),
        };
        let mut links = Vec::new(self.alloc);
        if links.push((sign, second)).is_err() {
            return Err(ParseFault::Memory);
        }
        match self.boxed(first) {
            Ok(first) => Ok((Expr::Chain(first, List::new(links)), next)),
            Err(fault) => Err(fault),
        }
    }

    /// A chain of a rank other than that of comparisons.
    #[cycle(expr)]
    pub(crate) fn chain(&self, rank: Rank, at: usize, depth: usize) -> Found<Expr>
        requires tokens { AreTokensOf self.now.text.now self.now.tokens.now }
        requires shallow { depth ≤ 64 }
        requires many { rank ≢ ranks.Comparison }
        ensures { ReadsAs (Chained rank) (size_of self.now) (seen self.now) (chain_frames rank) depth at result }
    {
        let (first, mut next) = match self.tighter(rank, at, depth) {
            Ok(found) => found,
            Err(fault) => return Err(fault),
        };
        let mut links = Vec::new(self.alloc);
        while let Some(sign) = self.sign(rank, next) {
            if links.len() >= MOST_LINKS {
                return Err(ParseFault::TooMany {
                    at: self.offset(next),
                });
            }
            let (operand, behind) = match self.tighter(rank, next + 1, depth) {
                Ok(found) => found,
                Err(fault) => return Err(fault),
            };
            if links.push((sign, operand)).is_err() {
                return Err(ParseFault::Memory);
            }
            next = behind;
        }
        if links.is_empty() {
            return Ok((first, next));
        }
        match self.boxed(first) {
            Ok(first) => Ok((Expr::Chain(first, List::new(links)), next)),
            Err(fault) => Err(fault),
        }
    }
}
