//! Which requests of a batch that may be reordered are committed, in which order, and which are carried.

use crate::rule::chosen;
use crate::works::works_of;
use batch_reorder::Rule2;
use std::alloc::Global;
use std::test::Fail;
use test_support::hold_table;

const BATCHES: &str = "
    touches nothing           |                     | [0] []
    two that read             | x>;x>               | [0, 1] []
    read, then written        | x>;x>x              | [0, 1] []
    written, then read        | x>x;x>              | [1, 0] []
    written twice             | x>x;x>x             | [0] [1]
    written twice, not read   | >x;>x               | [0] [1]
    two entities              | x>x;y>y             | [0, 1] []
    reads what is written     | x>x;xy>y            | [1, 0] []
    each reads of the other   | x>y;y>x             | [0] [1]
    reads of one that is carried | x>x;xy>xy;y>     | [0, 2] [1]
    writes what a carried one reads | x>x;xy>x;y>y  | [0, 2] [1]
    writes what a carried one writes | x>x;xy>xy;y>y | [0] [1, 2]
    both of one that is carried | x>x;xyz>xz;yz>y   | [0] [1, 2]
    many read, one writes     | x>;x>;x>x;x>        | [3, 0, 1, 2] []
    each before its own       | x>x;y>y;x>;y>;z>z   | [3, 2, 0, 1, 4] []
    before one at the front   | x>x;xy>y;y>         | [2, 1, 0] []
    created, and found missing | i>i;u>u;i>         | [2, 0, 1] []
    three sales of one item   | i>i;ui>ui;ui>ui     | [0] [1, 2]
    sales that come to nothing | ui>;ui>;ui>        | [0, 1, 2] []
";

fn told(alloc: Global, batch: &str) -> Result<String, Fail> {
    let works = works_of(alloc, batch)?;
    let told = chosen(alloc, &Rule2::new(), &works);
    drop(works);
    Ok(told?)
}

#[test]
fn who_reads_goes_before_who_writes(rt: HostRuntime) -> Result<(), Fail> {
    hold_table(rt.alloc(), BATCHES, 19, told)
}
