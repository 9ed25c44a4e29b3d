//! The total in the line of a run, below and past what a word holds.

use crate::runs::summary_told;
use generated_run::Summary;
use std::alloc::Global;
use std::test::Fail;
use test_support::{Case, hold_cases};
use wide_sums::Sum;

/// Three balances.
type Balances = (i128, i128, i128);

/// What stands before the total in the line of a run of one request.
const FRONT: &str = "requests 1 committed 1 failed 0 batches 1 events 1 total ";

/// The end of the line of a run of one request that left these balances.
fn total_told(alloc: Global, balances: &Balances) -> Result<String, Fail> {
    let (first, second, third) = *balances;
    let summary = Summary {
        requests: 1,
        committed: 1,
        failed: 0,
        batches: 1,
        events: 1,
        total: Sum::nothing().plus(first).plus(second).plus(third),
    };
    let line = summary_told(alloc, &summary)?;
    let total = line.strip_prefix(FRONT).unwrap_or("another front");
    Ok(String::from_str(alloc, total.trim_end())?)
}

const TOTALS: [Case<'static, Balances>; 9] = [
    ("nothing", (0, 0, 0), "0"),
    ("just below it", (7, -9, 1), "-1"),
    ("as much on either side", (7, -9, 2), "0"),
    (
        "the last of twenty digits",
        (99_999_999_999_999_999_999, 0, 0),
        "99999999999999999999",
    ),
    (
        "the first of one more",
        (99_999_999_999_999_999_999, 1, 0),
        "100000000000000000000",
    ),
    (
        "below it with zeros behind",
        (-100_000_000_000_000_000_000, 0, -7),
        "-100000000000000000007",
    ),
    (
        "greatest balances",
        (i128::MAX, i128::MAX, i128::MAX),
        "510423550381407695195061911147652317181",
    ),
    (
        "least balances",
        (i128::MIN, i128::MIN, i128::MIN),
        "-510423550381407695195061911147652317184",
    ),
    ("greatest and least", (i128::MAX, i128::MIN, 1), "0"),
];

#[test]
fn totals_have_no_bound(rt: HostRuntime) -> Result<(), Fail> {
    hold_cases(rt.alloc(), &TOTALS, total_told)
}
