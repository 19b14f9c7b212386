/// Why a text has no body, with the offset of the token that is refused first.
#[derive(Clone, Copy, Debug, PartialEq, Eq)]
pub enum ParseFault {
    /// No body begins with the tokens up to and including this one. Where the tokens begin a body but
    /// end too early, the offset is the length of the text.
    Syntax { at: u64 },
    /// This `(`, `{`, `-` or `!` raises the nesting past 64.
    TooDeep { at: u64 },
    /// This sign is before operand number 65 of its chain, or this comma before value number 9 of its print.
    TooMany { at: u64 },
    /// This number is greater than 9223372036854775807.
    Literal { at: u64 },
    /// Memory ran out.
    Memory,
}
