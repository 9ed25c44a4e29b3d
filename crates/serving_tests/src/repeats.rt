//! Lines with an id that was used before.

use memory_calls::{Call, NO_FAULTS, Wanted, hold_call};
use std::test::Fail;
use test_support::COUNTER;

/// Each request twice, the second time with its ints in other forms or its keys in another order; then with other content.
const REPEATED: &str = r#"{"id":"a","class":"Counter","new":["x",1]}
{"id":"a","class":"Counter","new":["x","01"]}
{"id":"a","class":"Counter","new":["x",2]}
{"id":"b","class":"Counter","key":"x","method":"add","args":[2]}
{"args":["2"],"method":"add","key":"x","class":"Counter","id":"b"}
{"id":"b","class":"Counter","key":"y","method":"add","args":[2]}
{"id":"c","class":"Counter","key":"y","method":"add","args":[2]}
{"id":"c","class":"Counter","key":"y","method":"add","args":[2]}
{"id":"a","class":"Counter","new":["x"]}
{"id":"d","class":"Counter","key":"x","method":"add","args":[0]}
"#;

/// A repeat has the line of its entry again, whatever came of it, and takes no place. A line that is no request is told as such
/// before its id is looked up.
const ANSWERED: &str = r#"{"id":"a","ok":"x","seq":1}
{"id":"a","ok":"x","seq":1}
{"bad":"id reused","line":3}
{"id":"b","ok":3,"seq":2}
{"id":"b","ok":3,"seq":2}
{"bad":"id reused","line":6}
{"error":"NoEntity","id":"c","message":"","seq":3}
{"error":"NoEntity","id":"c","message":"","seq":3}
{"bad":"argument count","line":9}
{"id":"d","ok":3,"seq":4}
"#;

#[test]
fn a_repeat_is_answered_by_its_line_again(rt: HostRuntime) -> Result<(), Fail> {
    let made = Call {
        words: &["run", "a.py", "--batch", "1"],
        file: "a.py",
        text: COUNTER.as_bytes(),
        input: REPEATED.as_bytes(),
        faults: NO_FAULTS,
    };
    let wanted = Wanted {
        status: 0,
        out: ANSWERED.as_bytes(),
        err: b"",
    };
    hold_call(rt.alloc(), "the repeats", made, wanted)
}
