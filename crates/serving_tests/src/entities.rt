//! A program of two classes, whose entities make and call one another.

use memory_calls::{Call, NO_FAULTS, Wanted, hold_call};
use std::alloc::Global;
use std::test::Fail;

/// A clerk makes a box of its own at the first call, and adds to it in a loop.
const BOXES: &[u8] = b"from typing import Optional
from stateflow import entity

@entity
class Box:
    def __init__(self, k: str, n: int):
        self.k: str = k
        self.n: int = n

    def __key__(self): return self.k

    def add(self, d: int) -> int:
        self.n += d
        return self.n

    def spill(self) -> int:
        self.n = 0
        return 1 // self.n

@entity
class Clerk:
    def __init__(self, k: str):
        self.k: str = k
        self.box: Optional[Box] = None

    def __key__(self): return self.k

    def fill(self, turns: int, d: int) -> int:
        box = self.box
        if box is None:
            box = Box('of ' + self.k, 0)
            self.box = box
        total = 0
        for i in range(turns):
            total += box.add(d)
        return total
";

const REQUESTS: &[u8] = b"{\"id\":\"a\",\"class\":\"Clerk\",\"new\":[\"ann\"]}
{\"id\":\"b\",\"class\":\"Clerk\",\"key\":\"ann\",\"method\":\"fill\",\"args\":[3,2]}
{\"id\":\"c\",\"class\":\"Clerk\",\"key\":\"ann\",\"method\":\"fill\",\"args\":[1,10]}
{\"id\":\"d\",\"class\":\"Box\",\"key\":\"of ann\",\"method\":\"spill\",\"args\":[]}
{\"id\":\"e\",\"class\":\"Box\",\"key\":\"of ann\",\"method\":\"add\",\"args\":[0]}
{\"id\":\"f\",\"class\":\"Clerk\",\"key\":\"bob\",\"method\":\"fill\",\"args\":[1,1]}
";

/// The box has 2, then 4, then 6, and then 16; the spilling fails, so that nothing is spilt.
const REPLIES: &[u8] = b"{\"id\":\"a\",\"ok\":\"ann\",\"seq\":1}
{\"id\":\"b\",\"ok\":12,\"seq\":2}
{\"id\":\"c\",\"ok\":16,\"seq\":3}
{\"error\":\"ZeroDivisionError\",\"id\":\"d\",\"message\":\"\",\"seq\":4}
{\"id\":\"e\",\"ok\":16,\"seq\":5}
{\"error\":\"NoEntity\",\"id\":\"f\",\"message\":\"\",\"seq\":6}
";

/// Asserts what is answered to the requests by a call with these words.
fn hold_boxes(alloc: Global, words: &[&str]) -> Result<(), Fail> {
    let made = Call {
        words,
        file: "boxes.py",
        text: BOXES,
        input: REQUESTS,
        faults: NO_FAULTS,
    };
    let wanted = Wanted {
        status: 0,
        out: REPLIES,
        err: b"",
    };
    hold_call(alloc, "the boxes", made, wanted)
}

#[test]
fn run_serves_entities_that_call_one_another(rt: HostRuntime) -> Result<(), Fail> {
    hold_boxes(rt.alloc(), &["run", "boxes.py", "--batch", "1"])
}

#[test]
fn local_serves_them_the_same(rt: HostRuntime) -> Result<(), Fail> {
    hold_boxes(rt.alloc(), &["local", "boxes.py"])
}
