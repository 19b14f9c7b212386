ghost use Rattle.std.specs.Prelude.{◌≡◌, ◌∷◌, [], ◌<◌, ◌≤◌, Some, true, false, length, slice_index, IfSome};
ghost use Rattle.std.specs.List.{prefix_len};
ghost use Rattle.pe_lex.specs.Forms.{is_white, is_letter, is_digit, is_word_byte, has_form, kind_of, AnyWord};
ghost use Rattle.pe_lex.specs.Tokens.{longest};

use crate::token::TokenKind;

/// Whether a byte is a space, a tab, a line feed or a carriage return.
pub(crate) fn is_white_byte(byte: u8) -> bool
    ensures { result ≡ is_white byte }
{
    byte == b' ' || byte == b'\t' || byte == b'\n' || byte == b'\r'
}

fn is_lower_letter(byte: u8) -> bool
    ensures { result ≡ is_letter byte }
{
    b'a' <= byte && byte <= b'z'
}

fn is_decimal(byte: u8) -> bool
    ensures { result ≡ is_digit byte }
{
    b'0' <= byte && byte <= b'9'
}

fn continues_word(byte: u8) -> bool
    ensures { result ≡ is_word_byte byte }
{
    is_lower_letter(byte) || is_decimal(byte) || byte == b'_'
}

fn word_length(bytes: &[u8]) -> usize
    ensures { result ≡ prefix_len is_word_byte bytes.now }
{
    bytes.iter().take_while(|b| continues_word(**b)).count()
}

fn number_length(bytes: &[u8]) -> usize
    ensures { result ≡ prefix_len is_digit bytes.now }
{
    bytes.iter().take_while(|b| is_decimal(**b)).count()
}

#[tactic(auto, unfolding(crate::specs::Forms::kind_of))]
fn word_kind(word: &[u8]) -> TokenKind
    requires { has_form word.now AnyWord ≡ true }
    ensures { kind_of word.now ≡ Some result }
{
    match word {
        b"if" => TokenKind::If,
        b"else" => TokenKind::Else,
        b"refine" => TokenKind::Refine,
        b"erase" => TokenKind::Erase,
        b"print" => TokenKind::Print,
        b"min" => TokenKind::Min,
        b"max" => TokenKind::Max,
        b"abs" => TokenKind::Abs,
        _ => TokenKind::Word,
    }
}

#[tactic(auto, unfolding(crate::specs::Forms::kind_of))]
fn double_sign(first: u8, second: u8) -> Option<TokenKind>
    requires letter { is_letter first ≡ false }
    requires digit { is_digit first ≡ false }
    ensures { result ≡ kind_of (first ∷ second ∷ []) }
{
    match (first, second) {
        (b'=', b'=') => Some(TokenKind::Equal),
        (b'!', b'=') => Some(TokenKind::NotEqual),
        (b'<', b'=') => Some(TokenKind::LessOrEqual),
        (b'>', b'=') => Some(TokenKind::GreaterOrEqual),
        (b'&', b'&') => Some(TokenKind::And),
        (b'|', b'|') => Some(TokenKind::Or),
        _ => None,
    }
}

#[tactic(auto, unfolding(crate::specs::Forms::kind_of))]
fn single_sign(byte: u8) -> Option<TokenKind>
    requires letter { is_letter byte ≡ false }
    requires digit { is_digit byte ≡ false }
    ensures { result ≡ kind_of (byte ∷ []) }
{
    match byte {
        b'=' => Some(TokenKind::Assign),
        b'!' => Some(TokenKind::Not),
        b'<' => Some(TokenKind::Less),
        b'>' => Some(TokenKind::Greater),
        b'+' => Some(TokenKind::Plus),
        b'-' => Some(TokenKind::Minus),
        b'*' => Some(TokenKind::Star),
        b'/' => Some(TokenKind::Slash),
        b'%' => Some(TokenKind::Percent),
        b'(' => Some(TokenKind::OpenRound),
        b')' => Some(TokenKind::CloseRound),
        b'{' => Some(TokenKind::OpenCurly),
        b'}' => Some(TokenKind::CloseCurly),
        b',' => Some(TokenKind::Comma),
        b';' => Some(TokenKind::Semicolon),
        b'.' => Some(TokenKind::Dot),
        _ => None,
    }
}

fn sign_at(bytes: &[u8]) -> Option<(TokenKind, usize)>
    requires some { 0 < length bytes.now }
    requires letter { is_letter (slice_index bytes.now 0) ≡ false }
    requires digit { is_digit (slice_index bytes.now 0) ≡ false }
    ensures { result ≡ longest bytes.now }
{
    let first = bytes[0];
    if bytes.len() > 1 {
        if let Some(kind) = double_sign(first, bytes[1]) {
            return Some((kind, 2));
        }
    }
    match single_sign(first) {
        Some(kind) => Some((kind, 1)),
        None => None,
    }
}

/// The longest token at the front of a text that is not empty: its kind and its length.
pub(crate) fn token_at(bytes: &[u8]) -> Option<(TokenKind, usize)>
    requires { 0 < length bytes.now }
    ensures longest { result ≡ longest bytes.now }
    ensures within { IfSome result (λ found. (0 < found.1) × (found.1 ≤ length bytes.now)) }
{
    let first = bytes[0];
    if is_lower_letter(first) {
        let length = word_length(bytes);
        Some((word_kind(&bytes[..length]), length))
    } else if is_decimal(first) {
        Some((TokenKind::Number, number_length(bytes)))
    } else {
        sign_at(bytes)
    }
}
