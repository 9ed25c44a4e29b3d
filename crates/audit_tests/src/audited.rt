//! What an audit tells of a file in memory, as a text.

use program_text::accept;
use py_tree::Checked;
use run_audit::{AuditFault, Verdict, audit};
use sf_outside::MemFiles;
use sf_value::Bytes;
use std::alloc::{AllocError, Global};
use std::test::Fail;
use test_support::SHOP;

/// A line as a text.
fn line_told(line: &Bytes) -> &str {
    str::from_utf8(line.as_slice()).unwrap_or("no text")
}

fn verdict_told(alloc: Global, verdict: &Verdict) -> Result<String, AllocError> {
    match verdict {
        Verdict::Serial { entries } => format!(in alloc; "serial {entries}"),
        Verdict::Differs {
            place,
            wanted,
            found,
        } => {
            let wanted = line_told(wanted);
            let found = line_told(found);
            format!(in alloc; "entry {place}: {wanted}, not {found}")
        }
        Verdict::BadRun { line } => format!(in alloc; "bad line {line}"),
    }
}

/// What an audit of these bytes tells that may read so many of them.
fn told_by(alloc: Global, program: &Checked, limit: u64, run: &[u8]) -> Result<String, AllocError> {
    let mut files = MemFiles::new(alloc, &["run"], &[run], &[])?;
    match audit(alloc, program, &mut files, "run", limit) {
        Ok(verdict) => {
            let told = verdict_told(alloc, &verdict);
            drop(verdict);
            told
        }
        Err(AuditFault::ReadFault) => String::from_str(alloc, "read fault"),
        Err(AuditFault::InputTooLong) => String::from_str(alloc, "too long"),
        Err(AuditFault::NoMemory) => String::from_str(alloc, "no memory"),
    }
}

/// What an audit of these bytes tells by the shop's program.
pub fn audited(alloc: Global, limit: u64, run: &[u8]) -> Result<String, Fail> {
    let Ok(accepted) = accept(alloc, SHOP.as_bytes()) else {
        return Err(Fail::from("the shop is no accepted program"));
    };
    let told = told_by(alloc, &accepted.program, limit, run);
    drop(accepted);
    Ok(told?)
}
