//! Words that are a command's: each option in both forms, in any order.

use crate::told::asked;
use std::test::Fail;
use test_support::hold_table;

const FILES: &str = "
    check                    | check a.py                  | check a.py
    compile                  | compile a.py                | compile a.py
    local                    | local a.py                  | local a.py
    run by itself            | run a.py                    | run a.py 64 4 0 none 64 16777216 false
    gen by itself            | gen --number 7 --size 3     | gen 7 3 64 4
    a file of a folder       | check in/some-where/a=b.py  | check in/some-where/a=b.py
    a hyphen within          | check a-                    | check a-
    a file with a name's text | check batch                | check batch
    a command for the file   | run run                     | run run 64 4 0 none 64 16777216 false
";

#[test]
fn a_command_takes_its_file(rt: HostRuntime) -> Result<(), Fail> {
    hold_table(rt.alloc(), FILES, 9, asked)
}

const RUNS: &str = "
    batch apart              | run a.py --batch 1          | run a.py 1 4 0 none 64 16777216 false
    batch joined             | run a.py --batch=1          | run a.py 1 4 0 none 64 16777216 false
    partitions apart         | run a.py --partitions 2     | run a.py 64 2 0 none 64 16777216 false
    partitions joined        | run a.py --partitions=2     | run a.py 64 2 0 none 64 16777216 false
    schedule apart           | run a.py --schedule 3       | run a.py 64 4 3 none 64 16777216 false
    schedule joined          | run a.py --schedule=3       | run a.py 64 4 3 none 64 16777216 false
    store apart              | run a.py --store s          | run a.py 64 4 0 s 64 16777216 false
    store joined             | run a.py --store=s          | run a.py 64 4 0 s 64 16777216 false
    every apart              | run a.py --every 5          | run a.py 64 4 0 none 5 16777216 false
    every joined             | run a.py --every=5          | run a.py 64 4 0 none 5 16777216 false
    history apart            | run a.py --history 6        | run a.py 64 4 0 none 64 6 false
    history joined           | run a.py --history=6        | run a.py 64 4 0 none 64 6 false
    trace                    | run a.py --trace            | run a.py 64 4 0 none 64 16777216 true
    reorder                  | run a.py --reorder          | run a.py 64 4 0 none 64 16777216 false reorder
    both of them             | run --reorder a.py --trace  | run a.py 64 4 0 none 64 16777216 true reorder
    all of them              | run --trace --history=6 --every 5 a.py --store s --schedule=3 --partitions 2 --batch=1 | run a.py 1 2 3 s 5 6 true
    the file first           | run a.py --trace --batch 1  | run a.py 1 4 0 none 64 16777216 true
    the file last            | run --trace --batch 1 a.py  | run a.py 1 4 0 none 64 16777216 true
    the file within          | run --batch 1 a.py --trace  | run a.py 1 4 0 none 64 16777216 true
    a folder of two hyphens  | run a.py --store=--         | run a.py 64 4 0 -- 64 16777216 false
    a folder with a hyphen   | run a.py --store=-x         | run a.py 64 4 0 -x 64 16777216 false
    a folder with an equals sign | run a.py --store=a=b    | run a.py 64 4 0 a=b 64 16777216 false
    a folder like a number   | run a.py --store 0          | run a.py 64 4 0 0 64 16777216 false
";

#[test]
fn run_takes_its_options(rt: HostRuntime) -> Result<(), Fail> {
    hold_table(rt.alloc(), RUNS, 23, asked)
}

const WORKS: &str = "
    joined                   | gen --number=7 --size=3     | gen 7 3 64 4
    the other order          | gen --size 3 --number 7     | gen 7 3 64 4
    batch apart              | gen --number 7 --size 3 --batch 1      | gen 7 3 1 4
    batch joined             | gen --batch=1 --number 7 --size 3      | gen 7 3 1 4
    partitions apart         | gen --number 7 --partitions 2 --size 3 | gen 7 3 64 2
    partitions joined        | gen --number 7 --size 3 --partitions=2 | gen 7 3 64 2
";

#[test]
fn gen_takes_its_options(rt: HostRuntime) -> Result<(), Fail> {
    hold_table(rt.alloc(), WORKS, 6, asked)
}

const HISTORIES: &str = "
    a run of a file          | audit a.py r                | audit a.py r
    the other way round      | audit r a.py                | audit r a.py
    one file for both        | audit a.py a.py             | audit a.py a.py
    a command for the run    | audit a.py audit            | audit a.py audit
    a run with a hyphen within | audit a.py r-=1           | audit a.py r-=1
    a store apart            | export a.py --store s       | export a.py s
    a store joined           | export a.py --store=s       | export a.py s
    a store before the file  | export --store s a.py       | export a.py s
    a folder of two hyphens  | export a.py --store=--      | export a.py --
";

#[test]
fn a_history_is_named_by_its_store_or_its_lines(rt: HostRuntime) -> Result<(), Fail> {
    hold_table(rt.alloc(), HISTORIES, 9, asked)
}
