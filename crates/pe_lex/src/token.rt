/// What a token is: a word, a number, one of the keywords or one of the signs.
#[derive(Clone, Copy, Debug, PartialEq, Eq)]
pub enum TokenKind {
    /// A word that is not a keyword.
    Word,
    /// One or more digits.
    Number,
    /// `if`
    If,
    /// `else`
    Else,
    /// `refine`
    Refine,
    /// `erase`
    Erase,
    /// `print`
    Print,
    /// `min`
    Min,
    /// `max`
    Max,
    /// `abs`
    Abs,
    /// `=`
    Assign,
    /// `==`
    Equal,
    /// `!=`
    NotEqual,
    /// `!`
    Not,
    /// `<`
    Less,
    /// `<=`
    LessOrEqual,
    /// `>`
    Greater,
    /// `>=`
    GreaterOrEqual,
    /// `+`
    Plus,
    /// `-`
    Minus,
    /// `*`
    Star,
    /// `/`
    Slash,
    /// `%`
    Percent,
    /// `&&`
    And,
    /// `||`
    Or,
    /// `(`
    OpenRound,
    /// `)`
    CloseRound,
    /// `{`
    OpenCurly,
    /// `}`
    CloseCurly,
    /// `,`
    Comma,
    /// `;`
    Semicolon,
    /// `.`
    Dot,
}

/// A token of a text: its kind, the offset of its first byte, and the offset behind its last one.
#[derive(Clone, Copy, Debug, PartialEq, Eq)]
pub struct Token {
    pub kind: TokenKind,
    pub start: u64,
    pub end: u64,
}

/// Why a text has no tokens.
#[derive(Clone, Copy, Debug, PartialEq, Eq)]
pub enum LexFault {
    /// The first character that begins no token has its first byte at this offset.
    Character { at: u64 },
    /// Memory ran out.
    Memory,
}
