ghost use Rattle.std.specs.Prelude.{◌≡◌, ◌<◌, ◌≤◌, pos, Some, length, MatchOption, MatchResult};
ghost use Rattle.pe_lex.specs.declared.token.TokenKind.TheVariants as kind;
ghost use Rattle.pe_lex.specs.Spans.{AreTokensOf};
ghost use Rattle.pe_parse.specs.Lexemes.{kind_at, value_of};
ghost use Rattle.pe_parse.specs.declared.fault.ParseFault.TheVariants.{Memory};
ghost use Rattle.pe_parse.specs.Reading.{seen, spelled_at};

use crate::fault::ParseFault;
use crate::reader::Reader;
use pe_base::Text;

const GREATEST: u64 = 9_223_372_036_854_775_807;

/// The number that digits spell, or `None` where it is greater than any number of an expression.
fn number(digits: &[u8]) -> Option<u64>
    ensures { MatchOption result (9223372036854775807 < value_of digits.now) (λ n. (n ≡ value_of digits.now) × (n ≤ 9223372036854775807)) }
{
    let mut value = 0u64;
    for digit in digits {
        let next = u64::from(digit.saturating_sub(b'0'));
        if value > (GREATEST - next) / 10 {
            return None;
        }
        value = value * 10 + next;
    }
    Some(value)
}

impl<'a> Reader<'a> {
    /// The bytes of a token.
    pub(crate) fn bytes(&self, at: usize) -> &'a [u8]
        requires tokens { AreTokensOf self.now.text.now self.now.tokens.now }
        requires within { at < length self.now.tokens.now }
        ensures { result.now ≡ spelled_at (seen self.now) at }
    {
        let token = self.tokens[at];
        &self.text[token.start as usize..token.end as usize]
    }

    /// The value of a number.
    pub(crate) fn literal(&self, at: usize) -> Option<i64>
        requires tokens { AreTokensOf self.now.text.now self.now.tokens.now }
        requires within { at < length self.now.tokens.now }
        ensures { MatchOption result (9223372036854775807 < value_of (spelled_at (seen self.now) at)) (λ n. (n ≡ pos (value_of (spelled_at (seen self.now) at))) × (value_of (spelled_at (seen self.now) at) ≤ 9223372036854775807)) }
    {
        match number(self.bytes(at)) {
            Some(value) => Some(value as i64),
            None => None,
        }
    }

    /// The text of a word.
    pub(crate) fn word(&self, at: usize) -> Result<Text, ParseFault>
        requires tokens { AreTokensOf self.now.text.now self.now.tokens.now }
        requires word { kind_at (seen self.now) at ≡ Some kind.Word }
        ensures { MatchResult result (λ text. text ≡ spelled_at (seen self.now) at) (λ fault. fault ≡ Memory) }
    {
        let spelled = match std::str::from_utf8(self.bytes(at)) {
            Ok(spelled) => spelled,
            Err(_) => unreachable!(),
        };
        match String::from_str(self.alloc, spelled) {
            Ok(text) => Ok(Text::new(text)),
            Err(_) => Err(ParseFault::Memory),
        }
    }
}
