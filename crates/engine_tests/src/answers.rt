//! What lines are answered, and when: rows of a line and what it is answered, with what each batch came to
//! behind `batch`: how many requests waited, how many of them were committed, and how many events were handled.

use crate::places::{IN_EACH_PLACE, PLACES};
use line_driver::{Driver, Options, other_answer};
use operator_graph::NoWatch;
use std::alloc::Global;
use std::test::Fail;
use test_support::{Case, NUM, PING, SHOP, hold_cases, hold_text};

/// The same of a new engine that runs the program of a text.
fn other_of(alloc: Global, text: &str, options: Options<'_>, table: &str) -> Result<String, Fail> {
    let mut driver = Driver::new(alloc, text, options)?;
    let mut watch = NoWatch;
    let other = other_answer(alloc, &mut driver, &mut watch, table);
    drop(driver);
    let NoWatch = watch;
    other
}

/// Batches of so many requests, in four partitions, whose events come in order.
fn in_order(batch: usize, history: u32) -> Options<'static> {
    Options {
        batch,
        history,
        partitions: 4,
        picks: &[],
    }
}

pub const ONE_BY_ONE: &str = r#"
    an item          | new a Item ["apple",3]               | {"id":"a","ok":"apple","seq":1} batch 1 1 1
    its price        | call b Item apple price []           | {"id":"b","ok":3,"seq":2} batch 1 1 1
    two come in      | call c Item apple update_stock [2]   | {"id":"c","ok":true,"seq":3} batch 1 1 1
    a user           | new d User ["ann"]                   | {"id":"d","ok":"ann","seq":4} batch 1 1 1
    she buys both    | call e User ann buy_item [2,"apple"] | {"id":"e","ok":true,"seq":5} batch 1 1 5
    she has paid     | call f User ann money []             | {"id":"f","ok":4,"seq":6} batch 1 1 1
    none is left     | call g User ann buy_item [1,"apple"] | {"id":"g","ok":false,"seq":7} batch 1 1 5
    and none is paid | call h User ann money []             | {"id":"h","ok":4,"seq":8} batch 1 1 1
"#;

pub const CALLED_BACK: &str = r#"
    one                            | new a A ["x"]       | {"id":"a","ok":"x","seq":1} batch 1 1 1
    another                        | new b B ["y"]       | {"id":"b","ok":"y","seq":2} batch 1 1 1
    the target of += is read first | call c A x go ["y"] | {"id":"c","ok":6,"seq":3} batch 1 1 5
"#;

const NOT_READ: &str = r#"
    an item                   | new a Item ["a",3]                         | waits
    two are a batch           | new b Item ["b",8]                         | {"id":"a","ok":"a","seq":1} {"id":"b","ok":"b","seq":2} batch 2 2 2
    a third item              | new c Item ["c",9]                         | waits
    a cart                    | new k Cart ["k"]                           | {"id":"c","ok":"c","seq":3} {"id":"k","ok":"k","seq":4} batch 2 2 2
    the third is written      | call w Item c update_stock [1]             | waits
    the second is found first | call g Cart k first_dear [["a","b","c"],5] | {"id":"w","ok":true,"seq":5} {"id":"g","ok":8,"seq":6} batch 2 2 8
"#;

pub const ASKED_OR_NOT: &str = r#"
    one                  | new m1 A ["x"]              | waits
    another              | new m2 B ["y"]              | {"id":"m1","ok":"x","seq":1} {"id":"m2","ok":"y","seq":2} batch 2 2 2
    the other is written | call s1 B y set [1]         | waits
    and not asked        | call q1 A x ask [false,"y"] | {"id":"s1","ok":null,"seq":3} {"id":"q1","ok":false,"seq":4} batch 2 2 2
    it is written again  | call s2 B y set [2]         | waits
    and asked            | call q2 A x ask [true,"y"]  | {"id":"s2","ok":null,"seq":5} batch 2 1 4
    once more            | end                         | {"id":"q2","ok":true,"seq":6} batch 1 1 3
"#;

const THREE_SALES: &str = r#"
    an item                | new i Item ["apple",1]                | waits
    a user                 | new u User ["ann"]                    | waits
    the stock waits for it | call s Item apple update_stock [10]   | {"id":"i","ok":"apple","seq":1} {"id":"u","ok":"ann","seq":2} batch 3 2 3
    a sale                 | call p1 User ann buy_item [1,"apple"] | waits
    a second waits for it  | call p2 User ann buy_item [1,"apple"] | {"id":"s","ok":true,"seq":3} batch 3 1 11
    so does a third        | call p3 User ann buy_item [1,"apple"] | {"id":"p1","ok":true,"seq":4} batch 3 1 15
    one after another      | end                                   | {"id":"p2","ok":true,"seq":5} batch 2 1 10 {"id":"p3","ok":true,"seq":6} batch 1 1 5
"#;

const CARRIED: &str = r#"
    an item              | new a Item ["pear",4]     | waits
    there is none before | call b Item pear price [] | {"id":"a","ok":"pear","seq":1} batch 2 1 2
    there is one behind  | end                       | {"id":"b","ok":4,"seq":2} batch 1 1 1
"#;

const FAILED: &str = r#"
    a number                   | new a Num ["p",1]       | {"id":"a","ok":"p","seq":1} batch 1 1 1
    another                    | new b Num ["q",2]       | {"id":"b","ok":"q","seq":2} batch 1 1 1
    both are put, and it fails | call e Num p both ["q"] | {"error":"ZeroDivisionError","id":"e","message":"","seq":3} batch 1 1 3
    the one stays              | call f Num p get []     | {"id":"f","ok":1,"seq":4} batch 1 1 1
    the other stays            | call g Num q get []     | {"id":"g","ok":2,"seq":5} batch 1 1 1
"#;

const REPEATED: &str = r#"
    a new one          | new a Num ["p",1]   | waits
    the same waits     | new a Num ["p",1]   | waits already
    two are a batch    | call b Num p get [] | {"id":"a","ok":"p","seq":1} batch 2 1 2
    its id for another | new a Num ["p",2]   | {"bad":"id reused","line":4}
    the same again     | new a Num ["p",1]   | {"id":"a","ok":"p","seq":1}
    no request         | {                   | {"bad":"not json","line":6}
    the other          | end                 | {"id":"b","ok":1,"seq":2} batch 1 1 1
"#;

const FULL: &str = r#"
    one                | new a Num ["p",1]   | {"id":"a","ok":"p","seq":1} batch 1 1 1
    two                | call b Num p get [] | {"id":"b","ok":1,"seq":2} batch 1 1 1
    three are too many | call c Num p get [] | history full 2 1
"#;

const FULL_FOR_TWO: &str = r#"
    one waits                 | new a Num ["p",1] | waits
    for two there is no place | new b Num ["q",1] | history full 0 2
"#;

/// A history of so many entries has a place for all that wait.
const AMPLE: u32 = 100;

/// A program, how many requests make a batch, how many entries the history may have, and a table of lines.
type Served = (&'static str, usize, u32, &'static str);

/// Of each table no line is answered otherwise.
const SERVED: [Case<'static, Served>; 11] = [
    ("one by one", (SHOP, 1, AMPLE, ONE_BY_ONE), ""),
    ("called back", (PING, 1, AMPLE, CALLED_BACK), ""),
    ("not read", (SHOP, 2, AMPLE, NOT_READ), ""),
    ("asked or not", (PING, 2, AMPLE, ASKED_OR_NOT), ""),
    ("three sales", (SHOP, 3, AMPLE, THREE_SALES), ""),
    ("carried", (SHOP, 2, AMPLE, CARRIED), ""),
    ("failed", (NUM, 1, AMPLE, FAILED), ""),
    ("in each place", (PLACES, 1, AMPLE, IN_EACH_PLACE), ""),
    ("repeated", (NUM, 2, AMPLE, REPEATED), ""),
    ("full", (NUM, 1, 2, FULL), ""),
    ("full for two", (NUM, 2, 1, FULL_FOR_TWO), ""),
];

/// The first line of a table that is answered otherwise, or nothing.
fn served(alloc: Global, row: &Served) -> Result<String, Fail> {
    let (text, batch, history, table) = row;
    other_of(alloc, text, in_order(*batch, *history), table)
}

#[test]
fn lines_are_answered_in_batches(rt: HostRuntime) -> Result<(), Fail> {
    hold_cases(rt.alloc(), &SERVED, served)
}

/// Ten orders of the events, by lists of picks.
const ORDERS: [&[u32]; 10] = [
    &[],
    &[1, 1, 1, 1, 1, 1, 1, 1, 1, 1, 1, 1],
    &[0, 1, 2, 3, 4, 5, 6, 7, 8, 9, 10, 11],
    &[7, 3, 9, 1, 4, 2, 8, 5, 6, 0, 7, 3, 9],
    &[2, 2, 2, 2, 2, 2, 2, 2, 2, 2, 2, 2, 2, 2],
    &[2, 1, 0, 2, 1, 0, 2, 1, 0, 2, 1, 0, 2, 1, 0],
    &[1, 0, 1, 0, 1, 0, 1, 0, 1, 0, 1, 0, 1, 0, 1],
    &[4_294_967_295, 4_294_967_294, 4_294_967_293],
    &[0, 0, 0, 2, 0, 0, 0, 2, 2, 2, 1, 1, 1, 0, 1],
    &[5, 5, 4, 4, 3, 3, 2, 2, 1, 1, 0, 0, 5, 4, 3, 2, 1],
];

/// The first of three sales that is answered otherwise along these picks, in so many partitions.
fn other_along(alloc: Global, picks: &[u32], partitions: u32) -> Result<String, Fail> {
    let options = Options {
        batch: 3,
        history: AMPLE,
        partitions,
        picks,
    };
    other_of(alloc, SHOP, options, THREE_SALES)
}

#[test]
fn answers_are_the_same_in_each_order_of_events(rt: HostRuntime) -> Result<(), Fail> {
    for picks in ORDERS {
        hold_text(other_along(rt.alloc(), picks, 1), "")?;
        hold_text(other_along(rt.alloc(), picks, 64), "")?;
    }
    Ok(())
}
