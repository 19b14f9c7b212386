ghost use Rattle.std.specs.Prelude.{◌≡◌, Ok, None, MatchResult, IfOk, IfErr, length};
ghost use Rattle.pe_lex.specs.Tokens.{tokens_of};
ghost use Rattle.pe_parse.specs.Lexemes.{lexemes_of};
ghost use Rattle.pe_parse.specs.Statements.{statements_of};
ghost use Rattle.pe_parse.specs.Grammar.{All, Spells};
ghost use Rattle.pe_parse.specs.Faults.{fault_of};
ghost use Rattle.pe_parse.specs.Reading.{IsFault};
ghost use Rattle.pe_parse.specs.Bodies.{Refused};

use crate::fault::ParseFault;
use crate::reader::Reader;
use crate::tree::Body;
use pe_lex::Token;
use std::alloc::Global;

/// The tree of a body, from its text and the tokens of that text. A fault has the offset of the first
/// token that is refused, and at one token the order of the variants of `ParseFault` decides.
pub fn parse(alloc: Global, text: &str, tokens: &[Token]) -> Result<Body, ParseFault>
    requires { tokens_of text.now ≡ Ok tokens.now }
    ensures tree { IfOk result (λ body. Spells (All (statements_of body)) (lexemes_of text.now tokens.now)) }
    ensures first { MatchResult result (λ _. fault_of text.now tokens.now ≡ None) (λ fault. IsFault (fault_of text.now tokens.now) fault) }
    ensures refused { IfErr result (λ fault. Refused (length text.now) (lexemes_of text.now tokens.now) fault) }
{
    whole_body(alloc, text, tokens)
}

fn whole_body(alloc: Global, text: &str, tokens: &[Token]) -> Result<Body, ParseFault>
    requires { tokens_of text.now ≡ Ok tokens.now }
    ensures tree { IfOk result (λ body. Spells (All (statements_of body)) (lexemes_of text.now tokens.now)) }
    ensures first { MatchResult result (λ _. fault_of text.now tokens.now ≡ None) (λ fault. IsFault (fault_of text.now tokens.now) fault) }
{
    let reader = Reader {
        alloc,
        text: text.as_bytes(),
        tokens,
    };
    let (body, next) = match reader.body(0, 0) {
        Ok(found) => found,
        Err(fault) => return Err(fault),
    };
    if next < tokens.len() {
        return Err(ParseFault::Syntax {
            at: reader.offset(next),
        });
    }
    Ok(body)
}
