//! The least set of methods that may suspend, from what each of them calls and creates.

ghost use Rattle.std.specs.Prelude.{◌≡◌, ℕ, false, length, IfOk, IfSome, IfNone};
ghost use Rattle.std.specs.List.{list_any};
ghost use Rattle.call_graph.specs.Marks as spec;

use crate::sites::{Site, Sites};
use sf_list::Sequence;
use std::alloc::{AllocError, Global};

/// A mark for each method of a class: whether it may suspend.
pub type Marks = Sequence<bool>;

/// Whether a call or creation suspends, where the marked methods may.
fn suspends(site: Site, marks: &[bool]) -> bool
    ensures { result ≡ spec.suspends marks.now site }
{
    match site {
        Site::Away => true,
        Site::Own(method) => method < marks.len() && marks[method],
    }
}

/// Whether one of these suspends, where the marked methods may.
fn any_suspends(sites: &[Site], marks: &[bool]) -> bool
    ensures { result ≡ list_any (spec.suspends marks.now) sites.now }
{
    for site in sites {
        if suspends(*site, marks) {
            return true;
        }
    }
    false
}

/// A method that has no mark, though it may suspend where the marked methods may.
fn next_to_mark(rows: &[Sites], marks: &[bool]) -> Option<usize>
    requires { length marks.now ≡ length rows.now }
    ensures some { IfSome result (λ i. spec.IsNext rows.now marks.now i) }
    ensures none { IfNone result (spec.IsClosed rows.now marks.now) }
{
    for (i, row) in rows.iter().enumerate() {
        if !marks[i] && any_suspends(row.as_slice(), marks) {
            return Some(i);
        }
    }
    None
}

/// As many methods without a mark.
#[tactic(auto, using(crate::proofs::ClosureLaws::none_more))]
fn unmarked(alloc: Global, count: usize) -> Result<Marks, AllocError>
    ensures each { IfOk result (λ marks. length marks ≡ count) }
    ensures no { IfOk result (λ marks. (method : ℕ) → spec.marked marks method ≡ false) }
{
    let mut marks = Sequence::new(alloc);
    for _ in 0..count {
        marks.push(alloc, false)?;
    }
    Ok(marks)
}

/// Marks the methods that may suspend, by what each of them calls and creates.
#[tactic(auto, using(crate::proofs::ClosureLaws::closure_laws))]
pub fn marks_of(alloc: Global, rows: &[Sites]) -> Result<Marks, AllocError>
    ensures { IfOk result (spec.AreExact rows.now) }
{
    let mut marks = unmarked(alloc, rows.len())?;
    while let Some(i) = next_to_mark(rows, marks.as_slice()) {
        marks.set(i, true);
    }
    Ok(marks)
}
