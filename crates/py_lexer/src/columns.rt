//! The columns of the lines that are open, and where the next line may stand.

ghost use Rattle.std.specs.Prelude.{◌≡◌, ◌≤◌, length, OnOk};
ghost use Rattle.py_lexer.specs.OpenColumns as spec;

use std::alloc::AllocError;

/// How many of the open columns are less deep.
fn outer(kept: &[u32], column: u32) -> usize
    ensures value { result ≡ spec.outer column kept.now }
    ensures within { result ≤ length kept.now }
{
    kept.iter().take_while(|c| **c < column).count()
}

/// Whether this column is one of the open ones.
fn stands_among(kept: &[u32], column: u32) -> bool
    ensures { result ≡ spec.stands_among column kept.now }
{
    match kept.get(outer(kept, column)) {
        Some(found) => *found == column,
        None => false,
    }
}

/// Whether no line may have this column: the line before is deeper, and the column isn't open.
pub fn is_bad_dedent(kept: &[u32], column: u32) -> bool
    ensures { result ≡ spec.is_bad_dedent column kept.now }
{
    match kept.last() {
        Some(last) => column < *last && column != 0 && !stands_among(kept, column),
        None => false,
    }
}

/// Shuts the deeper columns, and opens this one.
pub fn open_column(kept: &mut Vec<u32>, column: u32) -> Result<(), AllocError>
    ensures { OnOk result (kept.new.items ≡ spec.opened column kept.old.items) }
{
    kept.truncate(outer(kept, column));
    kept.push(column)?;
    Ok(())
}
