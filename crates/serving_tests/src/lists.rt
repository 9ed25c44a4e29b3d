//! Elements and lengths of lists that stand in fields and in locals.

use memory_calls::{Call, NO_FAULTS, Wanted, hold_call};
use std::test::Fail;

const ROWS: &[u8] = b"from stateflow import entity

@entity
class Row:
    def __init__(self, k: str, a: int, b: int):
        self.k: str = k
        self.xs: list[int] = [a, b, a + b]

    def __key__(self): return self.k

    def at(self, i: int) -> int: return self.xs[i]

    def after(self, i: int) -> int: return self.xs[i + 1]

    def before(self, i: int) -> int:
        xs = self.xs
        return xs[i - 1]

    def from_end(self, i: int) -> int: return self.xs[len(self.xs) - 1 - i]

    def chosen(self, i: int) -> int: return self.xs[self.xs[i] - 4 if i > 0 else -1]

    def size(self) -> int: return len(self.xs)

    def clear(self, i: int) -> int:
        self.xs = []
        return i

    def cleared(self, i: int) -> int: return self.xs[self.clear(i)]

    def kept(self, i: int) -> int:
        xs = self.xs
        return xs[self.clear(i)] + len(xs)
";

const REQUESTS: &[u8] = b"{\"id\":\"a\",\"class\":\"Row\",\"new\":[\"r\",4,5]}
{\"id\":\"b\",\"class\":\"Row\",\"key\":\"r\",\"method\":\"at\",\"args\":[-1]}
{\"id\":\"c\",\"class\":\"Row\",\"key\":\"r\",\"method\":\"after\",\"args\":[0]}
{\"id\":\"d\",\"class\":\"Row\",\"key\":\"r\",\"method\":\"after\",\"args\":[2]}
{\"id\":\"e\",\"class\":\"Row\",\"key\":\"r\",\"method\":\"before\",\"args\":[0]}
{\"id\":\"f\",\"class\":\"Row\",\"key\":\"r\",\"method\":\"size\",\"args\":[]}
{\"id\":\"g\",\"class\":\"Row\",\"key\":\"r\",\"method\":\"cleared\",\"args\":[1]}
{\"id\":\"h\",\"class\":\"Row\",\"key\":\"r\",\"method\":\"size\",\"args\":[]}
{\"id\":\"i\",\"class\":\"Row\",\"key\":\"r\",\"method\":\"at\",\"args\":[0]}
{\"id\":\"j\",\"class\":\"Row\",\"new\":[\"s\",1,2]}
{\"id\":\"k\",\"class\":\"Row\",\"key\":\"s\",\"method\":\"kept\",\"args\":[2]}
{\"id\":\"l\",\"class\":\"Row\",\"new\":[\"t\",4,5]}
{\"id\":\"m\",\"class\":\"Row\",\"key\":\"t\",\"method\":\"from_end\",\"args\":[0]}
{\"id\":\"n\",\"class\":\"Row\",\"key\":\"t\",\"method\":\"chosen\",\"args\":[1]}
{\"id\":\"o\",\"class\":\"Row\",\"key\":\"t\",\"method\":\"chosen\",\"args\":[0]}
{\"id\":\"p\",\"class\":\"Row\",\"key\":\"t\",\"method\":\"chosen\",\"args\":[2]}
";

/// The list is read before its index runs, as Python does, and an assignment gives the field another list.
const REPLIES: &[u8] = b"{\"id\":\"a\",\"ok\":\"r\",\"seq\":1}
{\"id\":\"b\",\"ok\":9,\"seq\":2}
{\"id\":\"c\",\"ok\":5,\"seq\":3}
{\"error\":\"IndexError\",\"id\":\"d\",\"message\":\"\",\"seq\":4}
{\"id\":\"e\",\"ok\":9,\"seq\":5}
{\"id\":\"f\",\"ok\":3,\"seq\":6}
{\"id\":\"g\",\"ok\":5,\"seq\":7}
{\"id\":\"h\",\"ok\":0,\"seq\":8}
{\"error\":\"IndexError\",\"id\":\"i\",\"message\":\"\",\"seq\":9}
{\"id\":\"j\",\"ok\":\"s\",\"seq\":10}
{\"id\":\"k\",\"ok\":6,\"seq\":11}
{\"id\":\"l\",\"ok\":\"t\",\"seq\":12}
{\"id\":\"m\",\"ok\":9,\"seq\":13}
{\"id\":\"n\",\"ok\":5,\"seq\":14}
{\"id\":\"o\",\"ok\":9,\"seq\":15}
{\"error\":\"IndexError\",\"id\":\"p\",\"message\":\"\",\"seq\":16}
";

#[test]
fn list_is_read_before_its_index(rt: HostRuntime) -> Result<(), Fail> {
    let made = Call {
        words: &["local", "rows.py"],
        file: "rows.py",
        text: ROWS,
        input: REQUESTS,
        faults: NO_FAULTS,
    };
    let wanted = Wanted {
        status: 0,
        out: REPLIES,
        err: b"",
    };
    hold_call(rt.alloc(), "the lists", made, wanted)
}
