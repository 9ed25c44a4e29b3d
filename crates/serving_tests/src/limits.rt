//! The limit of an input, at a small one: as many bytes are served, and one more is too long.

use batch_run::{RunSettings, SessionFault, Tally, run_program};
use entity_compiler::compile;
use operator_graph::NoWatch;
use sf_outside::{ListChooser, MemSink, MemSource};
use std::alloc::Global;
use std::test::Fail;
use test_support::{COUNTER, hold_cases};

/// Runs the counter on an input, of which three bytes may come.
fn run_counter(
    alloc: Global,
    input: &mut MemSource,
    out: &mut MemSink,
    err: &mut MemSink,
    chooser: &mut ListChooser,
) -> Result<Result<Tally, SessionFault>, Fail> {
    let Ok(compiled) = compile(alloc, COUNTER.as_bytes()) else {
        return Err(Fail::from("the counter isn't compiled"));
    };
    let settings = RunSettings {
        batch: 64,
        partitions: 4,
        schedule: 0,
        history: 10,
        limit: 3,
        reorder: false,
        trace: true,
    };
    Ok(run_program(
        alloc,
        compiled,
        &settings,
        input,
        out,
        err,
        chooser,
        &mut NoWatch,
    ))
}

/// What a run of the counter on these bytes comes to.
fn told(alloc: Global, bytes: &str) -> Result<String, Fail> {
    let mut input = MemSource::new(alloc, bytes.as_bytes(), &[])?;
    let mut out = MemSink::new(alloc, 1000, &[])?;
    let mut err = MemSink::new(alloc, 1000, &[])?;
    let mut chooser = ListChooser::new(alloc, &[])?;
    let answered = run_counter(alloc, &mut input, &mut out, &mut err, &mut chooser);
    Ok(format!(in alloc; "{:?}", answered?)?)
}

#[test]
fn limit_of_three_bytes_takes_three(rt: HostRuntime) -> Result<(), Fail> {
    let three = "Ok(Tally { batches: 0, events: 0, failed: 0 })";
    let cases = [
        ("three bytes", "\n\n\n", three),
        ("four bytes", "\n\n\n\n", "Err(InputTooLong)"),
    ];
    hold_cases(rt.alloc(), &cases, |alloc, bytes| told(alloc, bytes))
}
