//! What `check` says of a text.

use memory_calls::{Answer, Faults, NO_FAULTS, call};
use std::alloc::{AllocError, Global};
use std::test::Fail;
use test_support::{Setting, hold_table, text_in};

/// Faults where each read of the input fails.
pub const UNREAD: Faults<'static> = Faults {
    input: &[1],
    ..NO_FAULTS
};

/// A row is a whole program.
pub const PROGRAM: Setting = Setting {
    head: "",
    indent: "",
    tail: "",
};

/// A row has the members of the class A, from line 3 on.
pub const CLASS: Setting = Setting {
    head: "@entity\nclass A:\n",
    indent: "    ",
    tail: "",
};

const KEYED: &str = "@entity
class A:
    def __init__(self, k: str):
        self.k: str = k
    def __key__(self):
        return self.k
";

/// A row has more members of the class A with the key k, from line 7 on.
pub const MEMBERS: Setting = Setting {
    head: KEYED,
    indent: "    ",
    tail: "",
};

/// A row has what stands behind the members of the class A with the key k, from line 7 on.
pub const BEHIND_A_CLASS: Setting = Setting {
    head: KEYED,
    indent: "",
    tail: "",
};

/// A row has the statements of a method f of the class A, from line 17 on.
pub const STATEMENTS: Setting = Setting {
    head: "@entity
class A:
    def __init__(self, k: str, n: int):
        self.k: str = k
        self.n: int = n
        self.o: Optional[int] = None
        self.xs: List[int] = []
    def __key__(self):
        return self.k
    def get(self) -> int:
        return self.n
    def put(self, v: int) -> None:
        self.n = v
    def opt(self, v: Optional[int]) -> Optional[int]:
        return v
    def f(self, x: int, o: Optional[int], xs: List[int], s: str, b: bool, a: 'A', oa: Optional['A']) -> None:
",
    indent: "        ",
    tail: "",
};

/// What a check said: the line that it printed, or the place and kind that it told, without the line's end.
fn said(alloc: Global, answer: &Answer) -> Result<String, AllocError> {
    let printed = answer.out.bytes();
    let told = answer.err.bytes();
    let line = told.strip_prefix(b"stateflow: a.py:").unwrap_or(printed);
    let line = line.strip_suffix(b"\n").unwrap_or(line);
    String::from_str(alloc, str::from_utf8(line).unwrap_or("no text"))
}

/// What a check says of the program of a row in its setting.
fn verdict(alloc: Global, setting: Setting, text: &str) -> Result<String, Fail> {
    let text = text_in(alloc, setting, text)?;
    let words = ["check", "a.py"];
    let answer = call(alloc, &words, "a.py", text.as_bytes(), b"", UNREAD)?;
    let said = said(alloc, &answer);
    drop(answer);
    Ok(said?)
}

/// Asserts that a table has so many rows, and what a check says of each in its setting.
pub fn hold(alloc: Global, setting: Setting, table: &str, count: usize) -> Result<(), Fail> {
    hold_table(alloc, table, count, |alloc, text| {
        verdict(alloc, setting, text)
    })
}
