//! The graphs that `compile` prints, and what it tells where it prints none.

use crate::last::{LAST, mended};
use crate::verdict::UNREAD;
use memory_calls::{Call, Faults, NO_FAULTS, Wanted, hold_call};
use std::alloc::Global;
use std::test::Fail;

/// The compilation of a text as `last.py`. The input fails wherever it is read.
fn compile_of(text: &[u8]) -> Call<'_> {
    Call {
        words: &["compile", "last.py"],
        file: "last.py",
        text,
        input: b"",
        faults: UNREAD,
    }
}

const GRAPH: &[u8] = b"class L: key k; 1 fields; 1 methods
method L.last: 1 blocks
  block 0: 1 vars, leave
";

/// Asserts the graph that is printed of a text.
fn hold_graph(alloc: Global, label: &str, text: &[u8], graph: &[u8]) -> Result<(), Fail> {
    let wanted = Wanted {
        status: 0,
        out: graph,
        err: b"",
    };
    hold_call(alloc, label, compile_of(text), wanted)
}

#[test]
fn text_of_the_graph_is_printed(rt: HostRuntime) -> Result<(), Fail> {
    let text = mended(rt.alloc(), b"\n")?;
    hold_graph(rt.alloc(), "no class", b"", b"")?;
    hold_graph(rt.alloc(), "mended", text.as_slice(), GRAPH)
}

#[test]
fn fault_of_the_text_is_told(rt: HostRuntime) -> Result<(), Fail> {
    let wanted = Wanted {
        status: 1,
        out: b"",
        err: b"stateflow: last.py:11:16: Unassigned\n",
    };
    hold_call(rt.alloc(), "last", compile_of(LAST), wanted)
}

#[test]
fn missing_file_is_a_read_fault(rt: HostRuntime) -> Result<(), Fail> {
    let made = Call {
        words: &["compile", "other.py"],
        faults: NO_FAULTS,
        ..compile_of(LAST)
    };
    let wanted = Wanted {
        status: 3,
        out: b"",
        err: b"stateflow: read fault\n",
    };
    hold_call(rt.alloc(), "another file", made, wanted)
}

/// Asserts what is written of the graph of a text where this call of the output fails.
fn hold_prefix(alloc: Global, text: &[u8], call: u64, written: &[u8]) -> Result<(), Fail> {
    let faults = Faults {
        out: &[call],
        ..UNREAD
    };
    let made = Call {
        faults,
        ..compile_of(text)
    };
    let wanted = Wanted {
        status: 4,
        out: written,
        err: b"stateflow: write fault\n",
    };
    hold_call(alloc, "a failed output", made, wanted)
}

/// Where the second call of the output fails, its flush, the whole text stands.
#[test]
fn failed_output_leaves_a_prefix_of_the_text(rt: HostRuntime) -> Result<(), Fail> {
    let text = mended(rt.alloc(), b"\n")?;
    hold_prefix(rt.alloc(), text.as_slice(), 1, b"")?;
    hold_prefix(rt.alloc(), text.as_slice(), 2, GRAPH)
}
