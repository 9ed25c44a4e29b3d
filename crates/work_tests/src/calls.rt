//! Calls that serve generated work.

use memory_calls::{Answer, Call, Faults, NO_FAULTS, Wanted, call, call_along, hold_call};
use operator_graph::{MemWatch, Note};
use sf_outside::{ListChooser, MemSource};
use std::alloc::{AllocError, Global};
use std::test::Fail;
use test_support::hold_text;

const THREE: [&str; 5] = ["gen", "--number", "7", "--size", "3"];

const THREE_OPENED: &[u8] = b"requests 3 committed 3 failed 0 batches 1 events 3 total 300\n";

const TEN_THOUSAND: [&str; 5] = ["gen", "--number", "1", "--size", "10000"];

/// Faults where each read of the file, or of the input, fails.
const UNREAD: Faults<'static> = Faults {
    file: &[1],
    input: &[1],
    ..NO_FAULTS
};

/// A call with these words, of which no input is read.
fn made_of<'a>(words: &'a [&'a str]) -> Call<'a> {
    Call {
        words,
        file: "a.py",
        text: b"",
        input: b"{}\n",
        faults: UNREAD,
    }
}

/// Asserts the line that a call with these words prints.
fn hold_line(alloc: Global, words: &[&str], line: &[u8]) -> Result<(), Fail> {
    let wanted = Wanted {
        status: 0,
        out: line,
        err: b"",
    };
    hold_call(alloc, "generated work", made_of(words), wanted)
}

#[test]
fn three_accounts_are_opened(rt: HostRuntime) -> Result<(), Fail> {
    hold_line(rt.alloc(), &THREE, THREE_OPENED)
}

/// One request, and each account in a batch of its own.
#[test]
fn work_is_as_large_as_is_asked(rt: HostRuntime) -> Result<(), Fail> {
    let rows: [(&[&str], &[u8]); 3] = [
        (
            &["gen", "--number=0", "--size=1"],
            b"requests 1 committed 1 failed 0 batches 1 events 1 total 100\n",
        ),
        (
            &["gen", "--number=7", "--size=3", "--batch=1"],
            b"requests 3 committed 3 failed 0 batches 3 events 3 total 300\n",
        ),
        (
            &["gen", "--size", "200", "--batch", "100", "--number", "9"],
            b"requests 200 committed 200 failed 0 batches 2 events 200 total 20000\n",
        ),
    ];
    for (words, line) in rows {
        hold_line(rt.alloc(), words, line)?;
    }
    Ok(())
}

/// The status of a call and what it printed.
fn answer_told(alloc: Global, answer: &Answer) -> Result<String, AllocError> {
    let text = str::from_utf8(answer.out.bytes()).unwrap_or("no text");
    format!(in alloc; "{} {text}", answer.status)
}

/// The status of a call with these words, and what it prints.
fn printed(alloc: Global, words: &[&str]) -> Result<String, AllocError> {
    let Call {
        words,
        file,
        text,
        input,
        faults,
    } = made_of(words);
    let answer = call(alloc, words, file, text, input, faults)?;
    let told = answer_told(alloc, &answer);
    drop(answer);
    told
}

/// Money moves among 200 accounts that opened with 100 each, and none of it is lost.
#[test]
fn ten_thousand_requests_lose_no_money(rt: HostRuntime) -> Result<(), Fail> {
    let line = printed(rt.alloc(), &TEN_THOUSAND)?;
    let first = line.starts_with("0 requests 10000 committed 10000 failed 0 batches ");
    let last = line.ends_with(" total 20000\n");
    assert!(rt; first && last, "{line}");
    Ok(())
}

const SIX_HUNDRED: [&str; 5] = ["gen", "--number", "1", "--size", "600"];

#[test]
fn equal_calls_print_the_same_line(rt: HostRuntime) -> Result<(), Fail> {
    let again = printed(rt.alloc(), &SIX_HUNDRED)?;
    assert!(rt; again.starts_with("0 "));
    hold_text(printed(rt.alloc(), &SIX_HUNDRED), again.as_str())
}

/// The status of the call for 600 requests, and what it prints, where these are picked first of the events in flight.
fn printed_along(alloc: Global, picks: &[u32]) -> Result<String, AllocError> {
    let mut input = MemSource::new(alloc, b"", &[])?;
    let mut chooser = ListChooser::new(alloc, picks)?;
    let file = ("a.py", b"".as_slice());
    let answer = call_along(
        alloc,
        &SIX_HUNDRED,
        file,
        &mut input,
        &mut chooser,
        NO_FAULTS,
    );
    drop(chooser);
    drop(input);
    let answer = answer?;
    let told = answer_told(alloc, &answer);
    drop(answer);
    told
}

/// What is picked changes no number.
#[test]
fn order_of_events_changes_no_line(rt: HostRuntime) -> Result<(), Fail> {
    let line = printed(rt.alloc(), &SIX_HUNDRED)?;
    assert!(rt; line.starts_with("0 "));
    let other = printed_along(rt.alloc(), &[5, 3, 8, 1, 0, 7, 2]);
    hold_text(other, line.as_str())
}

/// Asserts what is written of the line where this call of the output fails.
fn hold_prefix(alloc: Global, call: u64, written: &[u8]) -> Result<(), Fail> {
    let faults = Faults {
        out: &[call],
        ..UNREAD
    };
    let made = Call {
        faults,
        ..made_of(&THREE)
    };
    let wanted = Wanted {
        status: 4,
        out: written,
        err: b"stateflow: write fault\n",
    };
    hold_call(alloc, "a failed output", made, wanted)
}

/// The fifteen parts of the line, of which the total's sign and front digits are empty here, are written one after another, and then the output is flushed.
#[test]
fn failed_output_leaves_a_prefix_of_the_line(rt: HostRuntime) -> Result<(), Fail> {
    let rows: [(u64, &[u8]); 5] = [
        (1, b""),
        (2, b"requests "),
        (
            14,
            b"requests 3 committed 3 failed 0 batches 1 events 3 total ",
        ),
        (
            15,
            b"requests 3 committed 3 failed 0 batches 1 events 3 total 300",
        ),
        (16, THREE_OPENED),
    ];
    for (call, written) in rows {
        hold_prefix(rt.alloc(), call, written)?;
    }
    Ok(())
}

/// What a watch was told, note by note.
fn notes_told(alloc: Global, watch: &MemWatch) -> Result<String, AllocError> {
    let Some(notes) = watch.notes() else {
        return String::from_str(alloc, "nothing");
    };
    let mut told = String::new(alloc);
    for note in notes.as_slice() {
        told.push_str(match note {
            Note::Graph(_) => "graph ",
            Note::Step(_, _) => "event ",
        })?;
    }
    Ok(told)
}

/// What the watch is told by the call for three accounts.
fn told(alloc: Global) -> Result<String, AllocError> {
    let answer = call(alloc, &THREE, "a.py", b"", b"{}\n", UNREAD)?;
    let told = notes_told(alloc, &answer.watch);
    drop(answer);
    told
}

/// The graph is told first, and each event behind it.
#[test]
fn graph_and_events_are_told(rt: HostRuntime) -> Result<(), Fail> {
    hold_text(told(rt.alloc()), "graph event event event ")
}
