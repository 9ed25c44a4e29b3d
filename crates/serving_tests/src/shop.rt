//! Requests with values of every type: a shop, and a class of numbers.

use memory_calls::{Call, NO_FAULTS, Wanted, hold_call};
use std::alloc::Global;
use std::test::Fail;
use test_support::{NUM, SHOP};

/// A user who is given ten buys two apples, and then has too little for a third.
const SHOPPING: &str = r#"{"id":"a","class":"Item","new":["apple",3]}
{"id":"b","class":"Item","key":"apple","method":"price","args":[]}
{"id":"c","class":"Item","key":"apple","method":"update_stock","args":[2]}
{"id":"d","class":"User","new":["ann"]}
{"id":"e","class":"User","key":"ann","method":"buy_item","args":[2,"apple"]}
{"id":"f","class":"User","key":"ann","method":"money","args":[]}
{"id":"g","class":"User","key":"ann","method":"buy_item","args":[1,"apple"]}
{"id":"h","class":"User","key":"ann","method":"money","args":[]}
{"id":"k","class":"Cart","new":["cart"]}
{"id":"l","class":"Cart","key":"cart","method":"first_dear","args":[["apple","none"],3]}
{"id":"m","class":"Cart","key":"cart","method":"first_dear","args":[["apple","none"],4]}
"#;

const SHOPPED: &str = r#"{"id":"a","ok":"apple","seq":1}
{"id":"b","ok":3,"seq":2}
{"id":"c","ok":true,"seq":3}
{"id":"d","ok":"ann","seq":4}
{"id":"e","ok":true,"seq":5}
{"id":"f","ok":4,"seq":6}
{"id":"g","ok":false,"seq":7}
{"id":"h","ok":4,"seq":8}
{"id":"k","ok":"cart","seq":9}
{"id":"l","ok":3,"seq":10}
{"error":"NoEntity","id":"m","message":"","seq":11}
"#;

/// Ints beyond 64 bits, a list, and a method that writes two entities and then fails.
const COUNTING: &str = r#"{"id":"a","class":"Num","new":["p",1]}
{"id":"b","class":"Num","new":["q","0002"]}
{"id":"c","class":"Num","key":"p","method":"both","args":["q"]}
{"id":"d","class":"Num","key":"p","method":"get","args":[]}
{"id":"e","class":"Num","key":"q","method":"get","args":[]}
{"id":"f","class":"Num","key":"p","method":"div","args":[-7,"2"]}
{"id":"g","class":"Num","key":"p","method":"big","args":[]}
{"id":"h","class":"Num","key":"p","method":"div","args":["-170141183460469231731687303715884105728",-1]}
{"id":"i","class":"Num","key":"p","method":"div","args":["-170141183460469231731687303715884105728",1]}
{"id":"j","class":"Num","key":"p","method":"div","args":["170141183460469231731687303715884105728",1]}
{"id":"k","class":"Num","key":"p","method":"at","args":[[1,2,"3"],-1]}
{"id":"l","class":"Num","key":"p","method":"put","args":[5]}
"#;

const COUNTED: &str = r#"{"id":"a","ok":"p","seq":1}
{"id":"b","ok":"q","seq":2}
{"error":"ZeroDivisionError","id":"c","message":"","seq":3}
{"id":"d","ok":1,"seq":4}
{"id":"e","ok":2,"seq":5}
{"id":"f","ok":-4,"seq":6}
{"id":"g","ok":"170141183460469231731687303715884105727","seq":7}
{"error":"OverflowError","id":"h","message":"","seq":8}
{"id":"i","ok":"-170141183460469231731687303715884105728","seq":9}
{"bad":"argument type","line":10}
{"id":"k","ok":3,"seq":10}
{"id":"l","ok":null,"seq":11}
"#;

/// Asserts what is answered to an input on a program, by `local` and by `run`.
fn hold_served<'a>(
    alloc: Global,
    label: &str,
    program: &'a str,
    input: &'a str,
    replies: &str,
) -> Result<(), Fail> {
    let local = Call {
        words: &["local", "a.py"],
        file: "a.py",
        text: program.as_bytes(),
        input: input.as_bytes(),
        faults: NO_FAULTS,
    };
    let run = Call {
        words: &["run", "a.py", "--batch", "1"],
        ..local
    };
    let wanted = Wanted {
        status: 0,
        out: replies.as_bytes(),
        err: b"",
    };
    hold_call(alloc, label, local, wanted)?;
    hold_call(alloc, label, run, wanted)
}

#[test]
fn values_of_each_type_are_passed_and_printed(rt: HostRuntime) -> Result<(), Fail> {
    hold_served(rt.alloc(), "shop", SHOP, SHOPPING, SHOPPED)?;
    hold_served(rt.alloc(), "num", NUM, COUNTING, COUNTED)
}
