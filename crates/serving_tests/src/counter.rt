//! The counter served by `run` and by `local`: whole, and where each call of a device fails in turn.

use memory_calls::{Call, Faults, NO_FAULTS, Wanted, hold_call};
use std::alloc::Global;
use std::test::Fail;
use test_support::COUNTER;

pub const REQUESTS: &[u8] = b"{\"id\":\"a\",\"class\":\"Counter\",\"new\":[\"x\",3]}
{\"id\":\"b\",\"class\":\"Counter\",\"key\":\"x\",\"method\":\"add\",\"args\":[4]}
{\"id\":\"c\",\"class\":\"Counter\",\"key\":\"y\",\"method\":\"add\",\"args\":[1]}
{
{\"id\":\"a\",\"class\":\"Counter\",\"key\":\"x\",\"method\":\"add\",\"args\":[1]}
";

pub const REPLIES: &[u8] = b"{\"id\":\"a\",\"ok\":\"x\",\"seq\":1}
{\"id\":\"b\",\"ok\":7,\"seq\":2}
{\"error\":\"NoEntity\",\"id\":\"c\",\"message\":\"\",\"seq\":3}
{\"bad\":\"not json\",\"line\":4}
{\"bad\":\"id reused\",\"line\":5}
";

/// A run of the counter on its requests, one at a time.
fn run() -> Call<'static> {
    Call {
        words: &["run", "counter.py", "--batch", "1"],
        file: "counter.py",
        text: COUNTER.as_bytes(),
        input: REQUESTS,
        faults: NO_FAULTS,
    }
}

/// The counter and its requests, served directly.
fn local() -> Call<'static> {
    Call {
        words: &["local", "counter.py"],
        ..run()
    }
}

const SERVED: Wanted<'static> = Wanted {
    status: 0,
    out: REPLIES,
    err: b"",
};

const READ_FAULT: Wanted<'static> = Wanted {
    status: 3,
    out: b"",
    err: b"stateflow: read fault\n",
};

const WRITE_FAULT: Wanted<'static> = Wanted {
    status: 4,
    out: b"",
    err: b"stateflow: write fault\n",
};

/// A label, the calls of the devices that are to fail, and what is wanted then.
type FaultRow = (&'static str, Faults<'static>, Wanted<'static>);

/// Asserts that a call does what each row wants where the row's calls of the devices fail.
fn hold_faults(alloc: Global, made: Call<'_>, rows: &[FaultRow]) -> Result<(), Fail> {
    for (label, faults, wanted) in rows {
        let made = Call {
            faults: *faults,
            ..made
        };
        hold_call(alloc, label, made, *wanted)?;
    }
    Ok(())
}

/// The faults where these calls of the file fail.
fn of_file(calls: &'static [u64]) -> Faults<'static> {
    Faults {
        file: calls,
        ..NO_FAULTS
    }
}

/// The faults where these calls of the input fail.
fn of_input(calls: &'static [u64]) -> Faults<'static> {
    Faults {
        input: calls,
        ..NO_FAULTS
    }
}

/// The faults where these calls of the output fail.
fn of_out(calls: &'static [u64]) -> Faults<'static> {
    Faults {
        out: calls,
        ..NO_FAULTS
    }
}

#[test]
fn counter_answers_its_requests(rt: HostRuntime) -> Result<(), Fail> {
    hold_call(rt.alloc(), "run", run(), SERVED)
}

#[test]
fn failed_read_of_the_file_is_status_3(rt: HostRuntime) -> Result<(), Fail> {
    let rows = [
        ("the first read", of_file(&[1]), READ_FAULT),
        ("the second read", of_file(&[2]), READ_FAULT),
    ];
    hold_faults(rt.alloc(), run(), &rows)
}

#[test]
fn failed_read_of_the_input_leaves_whole_lines(rt: HostRuntime) -> Result<(), Fail> {
    let replied = Wanted {
        out: REPLIES,
        ..READ_FAULT
    };
    let rows = [
        ("the first read", of_input(&[1]), READ_FAULT),
        ("the second read", of_input(&[2]), replied),
    ];
    hold_faults(rt.alloc(), run(), &rows)
}

/// Asserts that of the replies so many bytes are written where this call of the output fails.
fn hold_written(alloc: Global, call: u64, written: usize) -> Result<(), Fail> {
    let faults = Faults {
        out: &[call],
        ..NO_FAULTS
    };
    let wanted = Wanted {
        out: &REPLIES[..REPLIES.len().min(written)],
        ..WRITE_FAULT
    };
    let made = Call { faults, ..run() };
    hold_call(alloc, "a write", made, wanted)
}

/// The output is flushed behind the lines of each batch, and at the end.
#[test]
fn failed_write_leaves_the_lines_before(rt: HostRuntime) -> Result<(), Fail> {
    let rows = [
        (1, 0),
        (2, 28),
        (3, 28),
        (4, 54),
        (5, 54),
        (6, 105),
        (7, 105),
        (8, 133),
        (9, 162),
    ];
    for (call, written) in rows {
        hold_written(rt.alloc(), call, written)?;
    }
    Ok(())
}

/// The faults where these calls of the error stream fail.
fn of_err(calls: &'static [u64]) -> Faults<'static> {
    Faults {
        err: calls,
        ..NO_FAULTS
    }
}

#[test]
fn failed_error_stream_is_status_4(rt: HostRuntime) -> Result<(), Fail> {
    let made = Call {
        words: &["run", "counter.py", "--batch", "0"],
        ..run()
    };
    let untold = Wanted {
        err: b"",
        ..WRITE_FAULT
    };
    let rows = [
        ("once", of_err(&[1]), WRITE_FAULT),
        ("twice", of_err(&[1, 2]), untold),
    ];
    hold_faults(rt.alloc(), made, &rows)
}

#[test]
fn local_serves_the_counter(rt: HostRuntime) -> Result<(), Fail> {
    hold_call(rt.alloc(), "local", local(), SERVED)
}

#[test]
fn local_tells_a_fault_of_a_device(rt: HostRuntime) -> Result<(), Fail> {
    let rows = [
        ("the file", of_file(&[1]), READ_FAULT),
        ("the input", of_input(&[1]), READ_FAULT),
        ("the output", of_out(&[1]), WRITE_FAULT),
    ];
    hold_faults(rt.alloc(), local(), &rows)
}
