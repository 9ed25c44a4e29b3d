//! What opens a level, up to the 64 that a program may open. The colon of a method opens the first.

use crate::outcome::parsed;
use std::alloc::{AllocError, Global};
use std::test::Fail;
use test_support::{Case, hold_cases};

/// A method that returns an expression. It begins at column 32 of line 4.
const HEAD: &[u8] = b"@entity\nclass A:\n    def g(self): pass\n    def f(self) -> int: return ";

/// Puts a piece behind a text so many times.
fn repeat(text: &mut Vec<u8>, piece: &[u8], count: u32) -> Result<(), AllocError> {
    for _ in 0..count {
        text.extend_from_slice(piece)?;
    }
    Ok(())
}

/// What stands first in an expression, what opens levels, what stands last, and what closes them.
type Opener = [&'static [u8]; 4];

/// What the parser makes of a method that returns so many nested pieces.
fn nested(alloc: Global, opener: &Opener, count: u32) -> Result<String, AllocError> {
    let [first, open, last, close] = opener;
    let mut text = Vec::from_slice(alloc, HEAD)?;
    text.extend_from_slice(first)?;
    repeat(&mut text, open, count)?;
    text.extend_from_slice(last)?;
    repeat(&mut text, close, count)?;
    parsed(alloc, text.as_slice())
}

/// What the parser makes of 64 levels beside the method's own, where 62 and 63 have a tree.
fn levels_told(alloc: Global, opener: &Opener) -> Result<String, Fail> {
    for count in [62, 63] {
        let told = nested(alloc, opener, count)?;
        if told.as_str() != "tree" {
            return Ok(format!(in alloc; "{count}: {told}")?);
        }
    }
    Ok(nested(alloc, opener, 64)?)
}

/// Each has the place of the 64th level where the method's colon is the first.
#[test]
fn each_opener_within_an_expression_opens_64_levels_and_no_more(
    rt: HostRuntime,
) -> Result<(), Fail> {
    let openers: [Case<'_, Opener>; 10] = [
        ("round brackets", [b"", b"(", b"1", b")"], "4:95: TooDeep"),
        ("square brackets", [b"", b"[", b"1", b"]"], "4:95: TooDeep"),
        ("calls", [b"", b"f(", b"1", b")"], "4:159: TooDeep"),
        ("indexes within", [b"", b"x[", b"1", b"]"], "4:159: TooDeep"),
        ("attributes", [b"x", b".y", b"", b""], "4:159: TooDeep"),
        ("indexes", [b"x", b"[1]", b"", b""], "4:222: TooDeep"),
        ("not", [b"", b"not ", b"x", b""], "4:284: TooDeep"),
        ("minus", [b"", b"-", b"1", b""], "4:95: TooDeep"),
        ("plus", [b"", b"+", b"1", b""], "4:95: TooDeep"),
        ("ifs", [b"", b"x if y else ", b"z", b""], "4:795: TooDeep"),
    ];
    hold_cases(rt.alloc(), &openers, levels_told)
}

/// What the parser makes of a method whose lines each hold the next.
fn suites(alloc: Global, count: &u32) -> Result<String, Fail> {
    let mut text = Vec::from_slice(alloc, b"@entity\nclass A:\n def f(self):\n")?;
    let mut indent = Vec::from_slice(alloc, b"  ")?;
    for _ in 0..*count {
        text.extend_from_slice(indent.as_slice())?;
        text.extend_from_slice(b"while x:\n")?;
        indent.push(b' ')?;
    }
    text.extend_from_slice(indent.as_slice())?;
    text.extend_from_slice(b"pass\n")?;
    Ok(parsed(alloc, text.as_slice())?)
}

#[test]
fn suites_open_64_levels_and_no_more(rt: HostRuntime) -> Result<(), Fail> {
    let cases = [
        ("62", 62, "tree"),
        ("63", 63, "tree"),
        ("64", 64, "67:73: TooDeep"),
    ];
    hold_cases(rt.alloc(), &cases, suites)
}
