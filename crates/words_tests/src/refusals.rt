//! Words that are no command's.

use crate::told::asked;
use std::test::Fail;
use test_support::hold_table;

#[test]
fn no_words_are_no_command(rt: HostRuntime) -> Result<(), Fail> {
    hold_table(rt.alloc(), "    none |  | usage", 1, asked)
}

const FILES: &str = "
    run without a file       | run                         | usage
    check without a file     | check                       | usage
    compile without a file   | compile                     | usage
    local without a file     | local                       | usage
    two files of run         | run a.py b.py               | usage
    two files of check       | check a.py b.py             | usage
    two files of compile     | compile a.py b.py           | usage
    two files of local       | local a.py b.py             | usage
    one file twice           | run a.py a.py               | usage
    two files around an option | run a.py --trace b.py     | usage
    a file of gen            | gen a.py --number 7 --size 3 | usage
    no command               | a.py                        | usage
    another case             | Run a.py                    | usage
    a longer name            | runs a.py                   | usage
    a file first             | a.py run                    | usage
    an option first          | --batch 1 run a.py          | usage
    an empty command         | '' a.py                     | usage
";

#[test]
fn a_command_takes_one_file_where_it_has_one(rt: HostRuntime) -> Result<(), Fail> {
    hold_table(rt.alloc(), FILES, 17, asked)
}

const REPEATS: &str = "
    batch                    | run a.py --batch 1 --batch 1 | usage
    batch in two forms       | run a.py --batch 1 --batch=1 | usage
    batch joined             | run --batch=1 a.py --batch=2 | usage
    partitions               | run a.py --partitions 1 --partitions 1 | usage
    schedule                 | run a.py --schedule 1 --schedule 1 | usage
    store                    | run a.py --store s --store=s | usage
    every                    | run a.py --every 1 --every 1 | usage
    history                  | run a.py --history 1 --history 1 | usage
    trace                    | run a.py --trace --trace     | usage
    trace around the file    | run --trace a.py --trace     | usage
    reorder                  | run a.py --reorder --reorder | usage
    number                   | gen --number 7 --size 3 --number 7 | usage
    size                     | gen --number 7 --size 3 --size=3 | usage
";

#[test]
fn an_option_stands_once(rt: HostRuntime) -> Result<(), Fail> {
    hold_table(rt.alloc(), REPEATS, 13, asked)
}

const HYPHENS: &str = "
    a hyphen for the file    | run -                       | usage
    two hyphens for the file | run --                      | usage
    two hyphens before the file | run -- a.py              | usage
    two hyphens behind it    | run a.py --                 | usage
    an empty file            | run ''                      | usage
    an empty word more       | run a.py ''                 | usage
    an empty word before     | run '' a.py                 | usage
    a hyphen more            | run a.py -                  | usage
    a file with a hyphen     | run -a.py                   | usage
    a hyphen as a value      | run a.py --store -          | usage
    a hyphen joined          | run a.py --store=-          | usage
    two hyphens as a value   | run a.py --store --         | usage
    an empty value           | run a.py --store ''         | usage
    an empty value joined    | run a.py --store=           | usage
    a value with a hyphen    | run a.py --store -x         | usage
    a negative number        | run a.py --batch -1         | usage
    an option for a value    | run a.py --store --trace    | usage
    an option with a value for a value | run a.py --store --batch=1 | usage
    no value                 | run a.py --batch            | usage
    no value before the file | run --trace --batch         | usage
    one hyphen for two       | run a.py -batch 1           | usage
    a short option           | run a.py -b 1               | usage
    three hyphens            | run a.py ---batch 1         | usage
    no name                  | run a.py --=1               | usage
";

#[test]
fn a_hyphen_begins_options_alone(rt: HostRuntime) -> Result<(), Fail> {
    hold_table(rt.alloc(), HYPHENS, 24, asked)
}

const OPTIONS: &str = "
    an option of check       | check a.py --batch 1        | usage
    an option of compile     | compile a.py --trace        | usage
    an option of local       | local a.py --batch 1        | usage
    every of gen             | gen --number 7 --size 3 --every 1 | usage
    trace of gen             | gen --number 7 --size 3 --trace | usage
    reorder of gen           | gen --number 7 --size 3 --reorder | usage
    reorder of local         | local a.py --reorder        | usage
    schedule of gen          | gen --number 7 --size 3 --schedule 1 | usage
    number of run            | run a.py --number 7         | usage
    gen without a size       | gen --number 7              | usage
    gen without a number     | gen --size 3                | usage
    gen by itself            | gen                         | usage
    an unknown option        | run a.py --other 1          | usage
    a shortened option       | run a.py --bat 1            | usage
    a longer option          | run a.py --batches 1        | usage
    another case             | run a.py --Batch 1          | usage
    an option of a file's name | run a.py --FILE b.py      | usage
    an option for the file   | run --FILE=a.py             | usage
    a value of trace         | run a.py --trace=x          | usage
    an empty value of trace  | run a.py --trace=           | usage
    true as a value of trace | run a.py --trace=true       | usage
    a word behind trace      | run a.py --trace true       | usage
    a value of reorder       | run a.py --reorder=x        | usage
    a word behind reorder    | run a.py --reorder true     | usage
    help                     | run --help                  | usage
    help beside a file       | run a.py --help             | usage
    help, shortened          | run a.py -h                 | usage
    version                  | run a.py --version          | usage
    version, shortened       | run a.py -V                 | usage
    help for a file          | run help                    | run help 64 4 0 none 64 16777216 false
";

#[test]
fn other_options_are_refused(rt: HostRuntime) -> Result<(), Fail> {
    hold_table(rt.alloc(), OPTIONS, 30, asked)
}

const HISTORIES: &str = "
    audit without a file     | audit                       | usage
    audit without a run      | audit a.py                  | usage
    three files of audit     | audit a.py r s              | usage
    an empty file of audit   | audit '' r                  | usage
    an empty run             | audit a.py ''               | usage
    a hyphen for the run     | audit a.py -                | usage
    two hyphens before the run | audit a.py -- r           | usage
    two hyphens for the run  | audit a.py --               | usage
    an option for the file   | audit --trace r             | usage
    a store of audit         | audit a.py --store s        | usage
    a store besides the run  | audit a.py r --store=s      | usage
    export without a store   | export a.py                 | usage
    export without a file    | export --store s            | usage
    two files of export      | export a.py b.py --store s  | usage
    a store without a folder | export a.py --store         | usage
    an empty folder          | export a.py --store=        | usage
    a hyphen for the folder  | export a.py --store=-       | usage
    a store twice            | export a.py --store s --store s | usage
    a batch of export        | export a.py --store s --batch 1 | usage
    trace of export          | export a.py --store s --trace | usage
";

#[test]
fn a_history_takes_nothing_else(rt: HostRuntime) -> Result<(), Fail> {
    hold_table(rt.alloc(), HISTORIES, 20, asked)
}
