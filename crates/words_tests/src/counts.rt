//! Numbers at both ends of their ranges, and one beyond.

use crate::told::asked;
use std::test::Fail;
use test_support::hold_table;

const RUNS: &str = "
    batch 0                  | run a.py --batch 0          | usage
    batch 1                  | run a.py --batch 1          | run a.py 1 4 0 none 64 16777216 false
    batch 256                | run a.py --batch 256        | run a.py 256 4 0 none 64 16777216 false
    batch 257                | run a.py --batch 257        | usage
    partitions 0             | run a.py --partitions 0     | usage
    partitions 1             | run a.py --partitions 1     | run a.py 64 1 0 none 64 16777216 false
    partitions 64            | run a.py --partitions 64    | run a.py 64 64 0 none 64 16777216 false
    partitions 65            | run a.py --partitions 65    | usage
    every 0                  | run a.py --every 0          | usage
    every 1                  | run a.py --every 1          | run a.py 64 4 0 none 1 16777216 false
    every 65535              | run a.py --every 65535      | run a.py 64 4 0 none 65535 16777216 false
    every 65536              | run a.py --every 65536      | usage
    history 0                | run a.py --history 0        | usage
    history 1                | run a.py --history 1        | run a.py 64 4 0 none 64 1 false
    history 2^32-1           | run a.py --history 4294967295 | run a.py 64 4 0 none 64 4294967295 false
    history 2^32             | run a.py --history 4294967296 | usage
    schedule 0               | run a.py --schedule 0       | run a.py 64 4 0 none 64 16777216 false
    schedule 2^64-1          | run a.py --schedule 18446744073709551615 | run a.py 64 4 18446744073709551615 none 64 16777216 false
    schedule 2^64            | run a.py --schedule 18446744073709551616 | usage
    schedule of 20 nines     | run a.py --schedule 99999999999999999999 | usage
";

#[test]
fn a_number_of_run_is_in_its_range(rt: HostRuntime) -> Result<(), Fail> {
    hold_table(rt.alloc(), RUNS, 20, asked)
}

const WORKS: &str = "
    number 0                 | gen --number 0 --size 1     | gen 0 1 64 4
    number 2^64-1            | gen --number 18446744073709551615 --size 1 | gen 18446744073709551615 1 64 4
    number 2^64              | gen --number 18446744073709551616 --size 1 | usage
    size 0                   | gen --number 7 --size 0     | usage
    size 100000              | gen --number 7 --size 100000 | gen 7 100000 64 4
    size 100001              | gen --number 7 --size 100001 | usage
    batch 0                  | gen --number 7 --size 1 --batch 0 | usage
    batch 257                | gen --number 7 --size 1 --batch 257 | usage
    partitions 0             | gen --number 7 --size 1 --partitions=0 | usage
    partitions 65            | gen --number 7 --size 1 --partitions=65 | usage
";

#[test]
fn a_number_of_gen_is_in_its_range(rt: HostRuntime) -> Result<(), Fail> {
    hold_table(rt.alloc(), WORKS, 10, asked)
}

const DIGITS: &str = "
    zeros in front           | run a.py --batch 007        | run a.py 7 4 0 none 64 16777216 false
    20 digits                | run a.py --batch 00000000000000000007 | run a.py 7 4 0 none 64 16777216 false
    21 digits                | run a.py --batch 000000000000000000007 | usage
    20 zeros                 | run a.py --schedule 00000000000000000000 | run a.py 64 4 0 none 64 16777216 false
    no digit                 | run a.py --batch=           | usage
    a plus                   | run a.py --batch +1         | usage
    a minus                  | run a.py --batch=-1         | usage
    a point                  | run a.py --batch 1.0        | usage
    an underscore            | run a.py --batch 1_0        | usage
    an exponent              | run a.py --batch 1e1        | usage
    a letter                 | run a.py --batch x          | usage
    a hexadecimal number     | run a.py --batch 0x1        | usage
    digits of a language     | run a.py --batch ٣          | usage
    a second equals sign     | run a.py --batch==1         | usage
";

#[test]
fn a_number_is_1_to_20_decimal_digits(rt: HostRuntime) -> Result<(), Fail> {
    hold_table(rt.alloc(), DIGITS, 14, asked)
}
