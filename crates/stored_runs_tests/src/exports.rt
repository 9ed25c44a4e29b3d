//! What `export` prints of a store, and what it says of one that it can't use.

use crate::bad_stores::run_behind;
use crate::runs::{ONE_BY_ONE, Run, each_runs};
use std::test::Fail;
use test_support::{NUM, SHOP};

/// A creation, a call of an entity that isn't there, and one of the first.
const SHOPPING: Run = Run {
    label: "three requests, of which the second fails",
    words: ONE_BY_ONE,
    program: SHOP,
    input: r#"{"id":"a","class":"Item","new":["apple","3"]}
{"id":"b","class":"Item","key":"pear","method":"price","args":[]}
{"method":"update_stock","args":[ 5 ],"key":"\u0061pple","class":"Item","id":"c"}
"#,
    unread: &[],
    status: 0,
    out: r#"{"id":"a","ok":"apple","seq":1}
{"error":"NoEntity","id":"b","message":"","seq":2}
{"id":"c","ok":true,"seq":3}
"#,
    err: "",
};

/// Their lines, with keys in order and nothing that needn't be there.
const EXPORT: Run = Run {
    label: "an export",
    words: &["export", "a.py", "--store", "s"],
    input: "",
    out: r#"{"class":"Item","id":"a","new":["apple",3]}
{"id":"a","ok":"apple","seq":1}
{"args":[],"class":"Item","id":"b","key":"pear","method":"price"}
{"error":"NoEntity","id":"b","message":"","seq":2}
{"args":[5],"class":"Item","id":"c","key":"apple","method":"update_stock"}
{"id":"c","ok":true,"seq":3}
"#,
    ..SHOPPING
};

/// The last of them again, which is answered as the first time.
const REPEAT: Run = Run {
    label: "the last request again",
    input: r#"{"id":"c","class":"Item","key":"apple","method":"update_stock","args":[5]}
"#,
    out: r#"{"id":"c","ok":true,"seq":3}
"#,
    ..SHOPPING
};

#[test]
fn an_export_prints_each_entry_and_changes_nothing(rt: HostRuntime) -> Result<(), Fail> {
    each_runs(rt.alloc(), &[SHOPPING, EXPORT, EXPORT, REPEAT, EXPORT])
}

/// The same requests with a checkpoint behind each.
const KEPT: Run = Run {
    label: "three requests that are kept",
    words: &[
        "run", "a.py", "--store", "s", "--batch", "1", "--every", "1",
    ],
    ..SHOPPING
};

#[test]
fn what_a_snapshot_keeps_is_exported(rt: HostRuntime) -> Result<(), Fail> {
    each_runs(rt.alloc(), &[KEPT, EXPORT])
}

/// A session that is asked for nothing leaves a store without an entry.
const NOTHING: Run = Run {
    label: "nothing is asked for",
    input: "",
    out: "",
    ..SHOPPING
};

const EMPTY: Run = Run {
    label: "an export of no entry",
    out: "",
    ..EXPORT
};

#[test]
fn a_store_without_an_entry_is_exported_as_nothing(rt: HostRuntime) -> Result<(), Fail> {
    each_runs(rt.alloc(), &[NOTHING, EMPTY])
}

/// The folder is there, and nothing is in it.
const NONE: Run = Run {
    label: "an export where there is no store",
    status: 11,
    out: "",
    err: "stateflow: no store\n",
    ..EXPORT
};

#[test]
fn no_store_is_told_and_none_is_made(rt: HostRuntime) -> Result<(), Fail> {
    each_runs(rt.alloc(), &[NONE, NONE])
}

#[test]
fn an_export_of_another_program_is_told(rt: HostRuntime) -> Result<(), Fail> {
    let other = Run {
        label: "an export by another program",
        program: NUM,
        status: 7,
        out: "",
        err: "stateflow: the store holds another program\n",
        ..EXPORT
    };
    each_runs(rt.alloc(), &[SHOPPING, other, EXPORT])
}

#[test]
fn an_export_of_a_bad_store_is_told(rt: HostRuntime) -> Result<(), Fail> {
    let bad = Run {
        label: "an export of a slot of zeros",
        status: 6,
        out: "",
        err: "stateflow: bad store: snap1 at 0\n",
        ..EXPORT
    };
    run_behind(rt.alloc(), "", "a5 0000000000", &bad)
}
