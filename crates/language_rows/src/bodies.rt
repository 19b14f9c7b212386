//! The rows of docs/LANGUAGE.md: what is read, and what is refused where.
use pe_lex::{LexFault, lex};
use pe_parse::{ParseFault, parse};
use std::alloc::Global;

// The fault of a text, or `None` where it is a body.
fn fault_of_text(alloc: Global, text: &str) -> Result<Option<ParseFault>, LexFault> {
    match lex(alloc, text) {
        Ok(tokens) => Ok(parse(alloc, text, tokens.as_slice()).err()),
        Err(fault) => Err(fault),
    }
}

const ROWS: &[(&str, Result<Option<ParseFault>, LexFault>)] = &[
    // Characters that begin no token.
    ("a & b", Err(LexFault::Character { at: 2 })),
    ("print é;", Err(LexFault::Character { at: 6 })),
    ("Print 1;", Err(LexFault::Character { at: 0 })),
    ("a | b", Err(LexFault::Character { at: 2 })),
    // Tokens that begin no body.
    ("print 1 +;", Ok(Some(ParseFault::Syntax { at: 9 }))),
    ("if 1 { print 1;", Ok(Some(ParseFault::Syntax { at: 15 }))),
    ("a = = 1", Ok(Some(ParseFault::Syntax { at: 4 }))),
    ("refine v0.u;", Ok(Some(ParseFault::Syntax { at: 9 }))),
    ("print 1 < 2 < 3;", Ok(Some(ParseFault::Syntax { at: 12 }))),
    ("print;", Ok(Some(ParseFault::Syntax { at: 5 }))),
    ("}", Ok(Some(ParseFault::Syntax { at: 0 }))),
    // As deep as may be, and deeper.
    (
        "print ((((((((((((((((((((((((((((((((((((((((((((((((((((((((((((((((1))))))))))))))))))))))))))))))))))))))))))))))))))))))))))))))));",
        Ok(None),
    ),
    (
        "print (((((((((((((((((((((((((((((((((((((((((((((((((((((((((((((((((1)))))))))))))))))))))))))))))))))))))))))))))))))))))))))))))))));",
        Ok(Some(ParseFault::TooDeep { at: 70 })),
    ),
    (
        "print 1,1,1,1,1,1,1,1,1;",
        Ok(Some(ParseFault::TooMany { at: 21 })),
    ),
    (
        "print 9223372036854775808;",
        Ok(Some(ParseFault::Literal { at: 6 })),
    ),
    ("print 9223372036854775807;", Ok(None)),
    // Bodies.
    ("", Ok(None)),
    ("global . sum = a_1 + 2 * -3 % 4;", Ok(None)),
    ("refine v0; erase p12;", Ok(None)),
    (
        "if !(a >= 1) && 2 || min(1, abs(-x)) { print 1, 2; } else { if max(1, 2) {} }",
        Ok(None),
    ),
];

#[test]
fn texts_and_their_faults(rt: HostRuntime) {
    for (text, wanted) in ROWS {
        let fault = fault_of_text(rt.alloc(), text);
        assert!(rt; fault == *wanted, "{fault:?} of {text}");
    }
}
