//! Each sign and each form of number, as the only token of a text.

use py_lexer::{TokenKind, lex};
use std::alloc::Global;
use std::test::Fail;
use test_support::hold_cases;

/// The kind of a text's only token.
fn only_token(alloc: Global, text: &str) -> Option<TokenKind> {
    let Ok(lines) = lex(alloc, text.as_bytes()) else {
        return None;
    };
    let line = lines.get(0)?;
    if line.tokens.len() != 1 {
        return None;
    }
    line.tokens.get(0).map(|token| token.kind)
}

/// The signs by their numbers; a bracket that closes has two, of which the lexer gives the second.
const SIGNS: [&str; 27] = [
    "//=", "->", "==", "!=", "<=", ">=", "//", "+=", "-=", "*=", "%=", ")", ")", "]", "]", ":",
    ",", ";", ".", "=", "<", ">", "+", "-", "*", "%", "@",
];

/// The first sign that has another number, or nothing.
fn other_sign(alloc: Global) -> Option<&'static str> {
    for number in 0..27u8 {
        let sign = SIGNS[number as usize];
        let wanted = match number {
            11 => 12,
            13 => 14,
            _ => number,
        };
        if only_token(alloc, sign) != Some(TokenKind::Sign(wanted)) {
            return Some(sign);
        }
    }
    None
}

#[test]
fn each_sign_has_its_number(rt: HostRuntime) -> Result<(), Fail> {
    assert_eq!(rt; other_sign(rt.alloc()), None);
    Ok(())
}

/// What a text's only token is.
fn told(alloc: Global, text: &&str) -> Result<String, Fail> {
    match only_token(alloc, text) {
        Some(TokenKind::Int(value)) => Ok(format!(in alloc; "{value}")?),
        _ => Ok(String::from_str(alloc, "no number")?),
    }
}

#[test]
fn each_form_of_number_has_its_value(rt: HostRuntime) -> Result<(), Fail> {
    let greatest = "170141183460469231731687303715884105727";
    let cases = [
        ("0", "0", "0"),
        ("two zeros", "00", "0"),
        ("two zeros apart", "0_0", "0"),
        ("7", "7", "7"),
        ("thousands apart", "1_000", "1000"),
        ("digits apart", "1_2_3", "123"),
        ("the greatest", greatest, greatest),
    ];
    hold_cases(rt.alloc(), &cases, told)
}
