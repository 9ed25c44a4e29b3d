//! The first lexical fault of a text: each kind, by the place where it stands.

use crate::outcome::lexed;
use std::alloc::{AllocError, Global};
use std::test::Fail;
use test_support::{Case, hold_cases, hold_text};

/// The place of a text's fault, where it is of this kind, or what the text is.
fn placed(alloc: Global, kind: &str, text: &[u8]) -> Result<String, Fail> {
    let found = lexed(alloc, text)?;
    match found.as_str().split_once(": ") {
        Some((place, told)) if told == kind => Ok(String::from_str(alloc, place)?),
        _ => Ok(found),
    }
}

/// Asserts that the text of each case has a fault of this kind, at the place that is wanted.
fn hold(alloc: Global, kind: &str, cases: &[Case<'_, &[u8]>]) -> Result<(), Fail> {
    hold_cases(alloc, cases, |alloc, text| placed(alloc, kind, text))
}

#[test]
fn texts_without_a_token_have_lines(rt: HostRuntime) -> Result<(), Fail> {
    let cases: [Case<'_, &[u8]>; 4] = [
        ("nothing", b"", "lines"),
        ("an empty line", b"\n", "lines"),
        (
            "blanks and comments",
            b"\n   \n\t\n\t # c\n  # d\n",
            "lines",
        ),
        ("lines that a return ends", b"\r\n\r\n", "lines"),
    ];
    hold_cases(rt.alloc(), &cases, |alloc, text| {
        Ok(lexed(alloc, text)?)
    })
}

#[test]
fn bytes_that_are_no_text_are_told(rt: HostRuntime) -> Result<(), Fail> {
    let rows: [Case<'_, &[u8]>; 9] = [
        ("in a comment", b"# abc \xff\n", "1:7"),
        ("a character that is cut", b"# \xe2\x82", "1:3"),
        ("two bytes for one", b"\xc0\xaf", "1:1"),
        ("above the last", b"# \xf4\x90\x80\x80", "1:3"),
        ("behind a tab", b"\t# \xff", "1:4"),
        ("in a string", b"\"a\xff", "1:3"),
        ("before a bad dedent", b"a\n    a\n  \xff", "3:3"),
        ("behind a number", b"1\xff", "1:2"),
        ("in brackets", b"(\xff", "1:2"),
    ];
    hold(rt.alloc(), "NotUtf8", &rows)
}

#[test]
fn tabs_before_a_token_are_told(rt: HostRuntime) -> Result<(), Fail> {
    let method = b"@entity\nclass A:\n\tdef f(self): pass\n";
    let rows: [Case<'_, &[u8]>; 5] = [
        ("before a return", b"\t\rx", "1:1"),
        ("before a byte of 0", b"\t\x00", "1:1"),
        ("before a method", method, "3:1"),
        ("behind a space", b"a\n \t'abc'\n", "2:2"),
        ("before a bad character", b"\tx $ \n", "1:1"),
    ];
    hold(rt.alloc(), "TabIndent", &rows)
}

#[test]
fn dedents_to_no_open_column_are_told(rt: HostRuntime) -> Result<(), Fail> {
    let method = b"@entity\nclass L:\n    def f(self) -> None:\n        pass\n      pass\n";
    let rows: [Case<'_, &[u8]>; 5] = [
        ("in a method", method, "5:7"),
        ("before a bad character", b"    a\n  $\n", "2:3"),
        ("before an open string", b"    a\n  'b\n", "2:3"),
        ("between two columns", b"a\n        b\n    c\n", "3:5"),
        ("below the first", b"  a\n b\n", "2:2"),
    ];
    hold(rt.alloc(), "BadDedent", &rows)
}

#[test]
fn escapes_that_are_none_are_told(rt: HostRuntime) -> Result<(), Fail> {
    let rows: [Case<'_, &[u8]>; 7] = [
        ("before a bad byte", b"\"\\\xff\"", "1:2"),
        ("one digit", b"x = \"\\x4\"\n", "1:6"),
        ("at the end", b"\"\\", "1:2"),
        ("of a line end", b"x = \"\"\"a\nb\\\nc\"\"\"\n", "2:2"),
        ("of the digit 0", b"x = '\\0'\n", "1:6"),
        ("in an open string", b"x = '\\b\n", "1:6"),
        ("of a byte of 0", b"'\\\x00'", "1:2"),
    ];
    hold(rt.alloc(), "BadEscape", &rows)
}

#[test]
fn strings_without_an_end_are_told(rt: HostRuntime) -> Result<(), Fail> {
    let rows: [Case<'_, &[u8]>; 5] = [
        ("before a bad byte", b"\"a\n\xff", "1:1"),
        ("behind an escaped quote", b"'a\\'\n", "1:1"),
        ("in brackets over lines", b"(\n\"a\n)\n", "2:1"),
        ("in brackets at the end", b"('a", "1:2"),
        ("two quotes of three", b"'''a''", "1:1"),
    ];
    hold(rt.alloc(), "OpenString", &rows)
}

#[test]
fn numbers_that_are_none_are_told(rt: HostRuntime) -> Result<(), Fail> {
    let leading = b"x = 099999999999999999999999999999999999999999999999999\n";
    let with_a_letter = b"x = 99999999999999999999999999999999999999999999999999a\n";
    let rows: [Case<'_, &[u8]>; 7] = [
        ("with a point", b"x = 1.5\n", "1:5"),
        ("of another base", b"x = 0b1\n", "1:5"),
        ("0 and more digits", b"x = -0_7\n", "1:6"),
        ("0 and many digits", leading, "1:5"),
        ("many digits and a letter", with_a_letter, "1:5"),
        ("an attribute", b"x = 1.real\n", "1:5"),
        ("two points", b"1..2\n", "1:1"),
    ];
    hold(rt.alloc(), "BadNumber", &rows)
}

#[test]
fn numbers_above_the_greatest_are_told(rt: HostRuntime) -> Result<(), Fail> {
    let parted =
        b"x = 1_7_0_1_4_1_1_8_3_4_6_0_4_6_9_2_3_1_7_3_1_6_8_7_3_0_3_7_1_5_8_8_4_1_0_5_7_2_8\n";
    let whole = b"170141183460469231731687303715884105728";
    let rows: [Case<'_, &[u8]>; 2] = [
        ("one above it, in parts", parted, "1:5"),
        ("one above it", whole, "1:1"),
    ];
    hold(rt.alloc(), "LiteralTooWide", &rows)
}

#[test]
fn characters_of_no_token_are_told(rt: HostRuntime) -> Result<(), Fail> {
    let rows: [Case<'_, &[u8]>; 19] = [
        ("a dollar, before a bad byte", b"$ \xff", "1:1"),
        ("a letter behind a number", b"x = 1\xc3\xa9\n", "1:6"),
        ("a dollar", b"x = a $ b\n", "1:7"),
        ("a question mark", b"x = a ? b\n", "1:7"),
        ("an exclamation mark", b"x = a ! b\n", "1:7"),
        ("a backquote", b"x = a ` b\n", "1:7"),
        ("one slash", b"x = a / b\n", "1:7"),
        ("a letter of two bytes", b"x = a \xc3\xa9 b\n", "1:7"),
        ("a space of two bytes", b"x = a \xc2\xa0 b\n", "1:7"),
        ("a mark of byte order", b"\xef\xbb\xbf@entity\n", "1:1"),
        ("a mark at the end", b"x!", "1:2"),
        ("a byte of 0", b"x = \x00", "1:5"),
        ("a byte of 0 in a comment", b"# a\x00b", "1:4"),
        ("a return alone", b"x\r", "1:2"),
        ("two returns", b"# a\r\r\n", "1:4"),
        ("a return in a string", b"'''a\n\rb'''", "2:1"),
        ("a space behind a backslash", b"x = 1 \\ \n+ 2\n", "1:7"),
        ("a backslash on a line alone", b"x\n\\\ny\n", "2:1"),
        ("behind a long string", b"x = '''a\nbc''' $\n", "2:7"),
    ];
    hold(rt.alloc(), "BadCharacter", &rows)
}

#[test]
fn brackets_that_stay_open_are_told(rt: HostRuntime) -> Result<(), Fail> {
    let rows: [Case<'_, &[u8]>; 5] = [
        ("one", b"(", "1:1"),
        ("the last of two", b"([", "1:2"),
        ("behind one that closes none", b")(\n", "1:2"),
        ("closed by another kind", b"([)\n", "1:1"),
        ("behind closed ones", b"a[0](2, (1)[3]\n", "1:5"),
    ];
    hold(rt.alloc(), "OpenBracket", &rows)
}

/// What the lexer makes of a comment of so many bytes.
fn comment_of(alloc: Global, length: usize) -> Result<String, AllocError> {
    let text = vec![in alloc; b'#'; length]?;
    lexed(alloc, &text)
}

#[test]
fn a_text_may_have_a_mebibyte(rt: HostRuntime) -> Result<(), Fail> {
    hold_text(comment_of(rt.alloc(), 1_048_576), "lines")?;
    hold_text(comment_of(rt.alloc(), 1_048_577), "1:1: TooLong")
}
