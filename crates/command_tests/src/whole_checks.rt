//! Whole checks: what is counted, line ends and comments, and devices that fail.

use crate::last::{LAST, MENDED, mended};
use memory_calls::{Call, Faults, NO_FAULTS, Wanted, call_beside, hold_call};
use sf_outside::{MemSource, Source};
use std::alloc::{AllocError, Global};
use std::test::Fail;
use test_support::{COUNTER, SHOP};

/// The mended program with a comment before the line of this number.
fn commented(alloc: Global, number: usize) -> Result<Vec<u8>, AllocError> {
    let mut text = Vec::new(alloc);
    for (at, line) in MENDED.iter().enumerate() {
        if at == number {
            text.extend_from_slice(b"# a comment\n")?;
        }
        text.extend_from_slice(line)?;
        text.push(b'\n')?;
    }
    Ok(text)
}

const IS_MENDED: &[u8] = b"ok: 1 classes, 1 methods\n";

/// Asserts what a check of a text as this file answers and writes. The input fails wherever it is read.
fn hold_check(
    alloc: Global,
    label: &str,
    (file, text): (&str, &[u8]),
    faults: Faults<'_>,
    wanted: Wanted<'_>,
) -> Result<(), Fail> {
    let made = Call {
        words: &["check", file],
        file,
        text,
        input: b"",
        faults: Faults {
            input: &[1],
            ..faults
        },
    };
    hold_call(alloc, label, made, wanted)
}

/// Asserts the line that is printed of a text that keeps every rule.
fn hold_kept(alloc: Global, label: &str, text: &[u8], line: &[u8]) -> Result<(), Fail> {
    let wanted = Wanted {
        status: 0,
        out: line,
        err: b"",
    };
    hold_check(alloc, label, ("a.py", text), NO_FAULTS, wanted)
}

/// Asserts the line that is told of a text that breaks a rule.
fn hold_broken(alloc: Global, file: &str, text: &[u8], line: &[u8]) -> Result<(), Fail> {
    let wanted = Wanted {
        status: 1,
        out: b"",
        err: line,
    };
    hold_check(alloc, "a broken text", (file, text), NO_FAULTS, wanted)
}

#[test]
fn name_of_a_loop_may_have_no_value_behind_it(rt: HostRuntime) -> Result<(), Fail> {
    let line = b"stateflow: last.py:11:16: Unassigned\n";
    hold_broken(rt.alloc(), "last.py", LAST, line)
}

/// Asserts that the mended program is counted with these line ends, with none behind its last line and with one.
fn hold_ends(alloc: Global, label: &str, end: &[u8]) -> Result<(), Fail> {
    let mut text = mended(alloc, end)?;
    hold_kept(alloc, label, text.as_slice(), IS_MENDED)?;
    text.extend_from_slice(end)?;
    hold_kept(alloc, label, text.as_slice(), IS_MENDED)
}

#[test]
fn line_ends_are_no_matter(rt: HostRuntime) -> Result<(), Fail> {
    hold_ends(rt.alloc(), "a line feed", b"\n")?;
    hold_ends(rt.alloc(), "a return and a line feed", b"\r\n")
}

/// Asserts that the mended program is counted with a comment before the line of this number.
fn hold_commented(alloc: Global, number: usize) -> Result<(), Fail> {
    let text = commented(alloc, number)?;
    hold_kept(alloc, "a comment", text.as_slice(), IS_MENDED)
}

#[test]
fn comment_between_two_lines_is_no_matter(rt: HostRuntime) -> Result<(), Fail> {
    for number in 0..MENDED.len() {
        hold_commented(rt.alloc(), number)?;
    }
    Ok(())
}

#[test]
fn classes_and_methods_are_counted(rt: HostRuntime) -> Result<(), Fail> {
    let (counter, shop) = (COUNTER.as_bytes(), SHOP.as_bytes());
    let alloc = rt.alloc();
    hold_kept(alloc, "no class", b"", b"ok: 0 classes, 0 methods\n")?;
    hold_kept(alloc, "the counter", counter, b"ok: 1 classes, 1 methods\n")?;
    hold_kept(alloc, "the shop", shop, b"ok: 3 classes, 5 methods\n")
}

/// A method of which a line stands between two columns.
const BETWEEN_TWO_COLUMNS: &[u8] = b"@entity
class L:
    def f(self) -> None:
        pass
      pass
";

/// A method without a result.
const NO_RESULT: &[u8] = b"@entity
class A:
    def f(self): pass
";

#[test]
fn lexical_and_syntax_faults_are_told(rt: HostRuntime) -> Result<(), Fail> {
    let rows: [(&[u8], &[u8]); 3] = [
        (BETWEEN_TWO_COLUMNS, b"stateflow: bad.py:5:7: BadDedent\n"),
        (
            b"import stateflow;\n",
            b"stateflow: bad.py:1:17: Unexpected\n",
        ),
        (NO_RESULT, b"stateflow: bad.py:3:9: MissingAnnotation\n"),
    ];
    for (text, line) in rows {
        hold_broken(rt.alloc(), "bad.py", text, line)?;
    }
    Ok(())
}

/// The status of a check beside an input of two bytes, and how many of these are left.
fn checked_beside_input(alloc: Global) -> Result<(u8, usize), AllocError> {
    let mut input = MemSource::new(alloc, b"{}", &[])?;
    let answer = call_beside(
        alloc,
        &["check", "counter.py"],
        "counter.py",
        COUNTER.as_bytes(),
        &mut input,
        NO_FAULTS,
    )?;
    let status = answer.status;
    drop(answer);
    let mut rest = [0; 3];
    Ok((status, input.read(&mut rest).unwrap_or(0)))
}

#[test]
fn check_leaves_its_input(rt: HostRuntime) -> Result<(), Fail> {
    assert_eq!(rt; checked_beside_input(rt.alloc())?, (0, 2));
    Ok(())
}

/// Asserts what a check of the counter answers and writes where a device fails.
fn hold_fault(
    alloc: Global,
    label: &str,
    faults: Faults<'_>,
    wanted: Wanted<'_>,
) -> Result<(), Fail> {
    let file = ("counter.py", COUNTER.as_bytes());
    hold_check(alloc, label, file, faults, wanted)
}

#[test]
fn check_tells_a_failed_read_of_its_file(rt: HostRuntime) -> Result<(), Fail> {
    let wanted = Wanted {
        status: 3,
        out: b"",
        err: b"stateflow: read fault\n",
    };
    let first = Faults {
        file: &[1],
        ..NO_FAULTS
    };
    let second = Faults {
        file: &[2],
        ..NO_FAULTS
    };
    hold_fault(rt.alloc(), "the first read", first, wanted)?;
    hold_fault(rt.alloc(), "the second read", second, wanted)
}

/// Asserts that so many bytes of the line are written where this call of the output fails.
fn hold_written(alloc: Global, call: u64, written: usize) -> Result<(), Fail> {
    let faults = Faults {
        out: &[call],
        ..NO_FAULTS
    };
    let wanted = Wanted {
        status: 4,
        out: &IS_MENDED[..IS_MENDED.len().min(written)],
        err: b"stateflow: write fault\n",
    };
    hold_fault(alloc, "a write", faults, wanted)
}

#[test]
fn failed_write_of_the_line_leaves_its_front(rt: HostRuntime) -> Result<(), Fail> {
    for (call, written) in [(1, 0), (2, 4), (3, 5), (4, 15), (5, 16), (6, 25)] {
        hold_written(rt.alloc(), call, written)?;
    }
    Ok(())
}
