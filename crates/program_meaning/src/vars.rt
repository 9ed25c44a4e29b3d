//! The locals of a running method.

use py_tree::Name;
use sf_list::Sequence;
use sf_value::Value;

/// A local with its value.
#[derive(Drop)]
pub struct Var {
    pub name: Name,
    pub value: Value,
}

pub type Vars = Sequence<Var>;
