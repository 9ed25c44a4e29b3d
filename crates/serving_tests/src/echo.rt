//! A program that gives back what it takes, and what is answered to lines on it.

use memory_calls::{Answer, NO_FAULTS, call};
use std::alloc::{AllocError, Global};
use std::test::Fail;

/// Methods that give back what they take, of every type.
const ECHO: &str = "from typing import List, Optional
@entity
class Thing:
    def __init__(self, k: str):
        self.k: str = k
    def __key__(self): return self.k
    def number(self, n: int) -> int: return n
    def truth(self, b: bool) -> bool: return b
    def text(self, s: str) -> str: return s
    def none(self, n: None) -> None: return n
    def numbers(self, xs: List[int]) -> List[int]: return xs
    def nested(self, xs: List[List[Optional[str]]]) -> List[List[Optional[str]]]: return xs
    def maybe(self, n: Optional[int]) -> Optional[int]: return n
    def perhaps(self, xs: Optional[List[Thing]]) -> Optional[List[Thing]]: return xs
    def other(self, t: Thing) -> Thing: return t
    def two(self, n: int, b: bool) -> bool: return b
";

/// What `local` writes for these lines.
pub fn answers(alloc: Global, lines: &[u8]) -> Result<String, Fail> {
    let words = ["local", "a.py"];
    let answer = call(alloc, &words, "a.py", ECHO.as_bytes(), lines, NO_FAULTS)?;
    let told = written(alloc, &answer);
    drop(answer);
    Ok(told?)
}

/// What a call wrote on its output.
pub fn written(alloc: Global, answer: &Answer) -> Result<String, AllocError> {
    String::from_str(
        alloc,
        str::from_utf8(answer.out.bytes()).unwrap_or("no text"),
    )
}

/// What stands in a text between its front and its back.
pub fn between<'a>(text: &'a str, front: &str, back: &str) -> Option<&'a str> {
    text.strip_prefix(front)?.strip_suffix(back)
}
