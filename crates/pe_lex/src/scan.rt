ghost use Rattle.pe_lex.specs.Tokens.{Lexes, tokens_of};

use crate::forms::{is_white_byte, token_at};
use crate::token::{LexFault, Token};
use std::alloc::Global;

/// The tokens of a text in order, each with where it stands. At each place the longest token is taken,
/// and white space (space, tab, line feed, carriage return) separates tokens and is otherwise ignored.
/// `Character` has the offset of the first character that begins no token, of its first byte.
pub fn lex(alloc: Global, text: &str) -> Result<Vec<Token>, LexFault>
    ensures { Lexes result (tokens_of text.now) }
{
    let bytes = text.as_bytes();
    let mut tokens = Vec::new(alloc);
    let mut at = 0usize;
    while at < bytes.len() {
        if is_white_byte(bytes[at]) {
            at += 1;
            continue;
        }
        let Some((kind, length)) = token_at(&bytes[at..]) else {
            return Err(LexFault::Character { at: at as u64 });
        };
        let end = at + length;
        let token = Token {
            kind,
            start: at as u64,
            end: end as u64,
        };
        if tokens.push(token).is_err() {
            return Err(LexFault::Memory);
        }
        at = end;
    }
    Ok(tokens)
}
