//! Calls and creations, and what a single one of them is.

ghost use Rattle.std.specs.Prelude.{◌≡◌, ◌++◌, map, OnOk};
ghost use Rattle.py_tree.specs.PlainExpressions.{plain_expr};
ghost use Rattle.py_tree.specs.PlainProgram.{plain_class};
ghost use Rattle.call_graph.specs.Suspending as spec;
ghost use Rattle.py_tree.specs.ClassViews.{numbers_of};

use py_tree::{Class, Expr, Name, has_class, is_self};
use sf_list::Sequence;
use std::alloc::{AllocError, Global};

/// A call or a creation.
#[derive(Clone, Copy, PartialEq, Eq, Debug)]
pub enum Site {
    /// A call on `self`, of the method with this number.
    Own(usize),
    /// A call on another receiver, or a creation.
    Away,
}

pub type Sites = Sequence<Site>;

/// The number of the method of this name.
#[tactic(auto, using(py_tree::proofs::ListWalks::place_laws))]
fn number_of(methods: &[Name], name: Name) -> Option<usize>
    ensures { result ≡ spec.number_of (numbers_of methods.now) name.0 }
{
    for (number, method) in methods.iter().enumerate() {
        if method.0 == name.0 {
            return Some(number);
        }
    }
    None
}

/// Adds a call of the method of this name on this receiver.
#[tactic(auto, using(crate::proofs::Parts::no_more), unfolding(crate::specs::Suspending::call))]
pub fn add_call(
    alloc: Global,
    methods: &[Name],
    on: &Expr,
    name: Name,
    found: &mut Sites,
) -> Result<(), AllocError>
    ensures { OnOk result (found.new ≡ found.old ++ spec.call (numbers_of methods.now) (plain_expr on.now) name.0) }
{
    if !is_self(on) {
        return found.push(alloc, Site::Away);
    }
    match number_of(methods, name) {
        Some(method) => found.push(alloc, Site::Own(method)),
        None => Ok(()),
    }
}

/// Adds a creation, where this is the name of a class.
#[tactic(auto, using(crate::proofs::Parts::no_more), unfolding(crate::specs::Suspending::creation))]
pub fn add_creation(
    alloc: Global,
    classes: &[Class],
    name: Name,
    found: &mut Sites,
) -> Result<(), AllocError>
    ensures { OnOk result (found.new ≡ found.old ++ spec.creation (map plain_class classes.now) name.0) }
{
    if has_class(classes, name) {
        return found.push(alloc, Site::Away);
    }
    Ok(())
}
