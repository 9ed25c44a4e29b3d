//! What runs on generated work come to, in their lines.

ghost use Rattle.std.specs.Prelude.{◌≤◌};
ghost use Rattle.operator_graph.specs.Partitions.{IsParts};

use generated_run::{GenSettings, Summary, run_generated, write_summary};
use operator_graph::NoWatch;
use sf_outside::{ListChooser, MemSink};
use std::alloc::Global;
use std::test::Fail;
use test_support::hold_text;

/// The line of a summary.
pub(crate) fn summary_told(alloc: Global, summary: &Summary) -> Result<String, Fail> {
    let mut out = MemSink::new(alloc, 1000, &[])?;
    let written = write_summary(&mut out, summary);
    let told = String::from_str(alloc, str::from_utf8(out.bytes()).unwrap_or("no text"));
    drop(out);
    match written {
        Ok(()) => Ok(told?),
        Err(_) => Err(Fail::from("the line isn't written")),
    }
}

/// The line of a run, where these are picked first of the events in flight.
fn line_of(alloc: Global, settings: &GenSettings, picks: &[u32]) -> Result<String, Fail>
    requires size { settings.now.size ≤ 100000 }
    requires some { 1 ≤ settings.now.batch }
    requires batch { settings.now.batch ≤ 256 }
    requires parts { IsParts settings.now.parts }
{
    let mut chooser = ListChooser::new(alloc, picks)?;
    let mut watch = NoWatch;
    let came = run_generated(alloc, settings, &mut chooser, &mut watch);
    let NoWatch = watch;
    drop(chooser);
    match came {
        Ok(summary) => summary_told(alloc, &summary),
        Err(_) => Err(Fail::from("no memory for the run")),
    }
}

#[test]
fn three_accounts_are_opened(rt: HostRuntime) -> Result<(), Fail> {
    let settings = GenSettings {
        number: 7,
        size: 3,
        batch: 64,
        parts: 4,
    };
    let wanted = "requests 3 committed 3 failed 0 batches 1 events 3 total 300\n";
    hold_text(line_of(rt.alloc(), &settings, &[]), wanted)
}

/// Each of three accounts in a batch of its own.
#[test]
fn batches_of_one_are_as_many_as_requests(rt: HostRuntime) -> Result<(), Fail> {
    let settings = GenSettings {
        number: 7,
        size: 3,
        batch: 1,
        parts: 4,
    };
    let wanted = "requests 3 committed 3 failed 0 batches 3 events 3 total 300\n";
    hold_text(line_of(rt.alloc(), &settings, &[]), wanted)
}

/// Money moves among 200 accounts that opened with 100 each, and none is lost.
#[test]
fn no_money_is_lost(rt: HostRuntime) -> Result<(), Fail> {
    let settings = GenSettings {
        number: 1,
        size: 10_000,
        batch: 64,
        parts: 4,
    };
    let line = line_of(rt.alloc(), &settings, &[])?;
    let first = line.starts_with("requests 10000 committed 10000 failed 0 batches ");
    let last = line.ends_with(" total 20000\n");
    assert!(rt; first && last, "{line}");
    Ok(())
}

#[test]
fn order_of_events_and_partitions_change_no_number(rt: HostRuntime) -> Result<(), Fail> {
    let alloc = rt.alloc();
    let settings = GenSettings {
        number: 1,
        size: 600,
        batch: 64,
        parts: 4,
    };
    let alone = GenSettings {
        number: 1,
        size: 600,
        batch: 64,
        parts: 1,
    };
    let line = line_of(alloc, &settings, &[])?;
    hold_text(line_of(alloc, &settings, &[]), line.as_str())?;
    let other = line_of(alloc, &alone, &[5, 3, 8, 1, 0, 7, 2]);
    hold_text(other, line.as_str())
}
