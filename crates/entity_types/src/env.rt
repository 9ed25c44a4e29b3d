//! What is known at a point of a method.

use py_tree::{Name, Ty};
use sf_list::Sequence;

/// A parameter or a local.
#[derive(Drop)]
pub struct Local {
    pub name: Name,
    pub ty: Ty,
    /// It surely has a value.
    pub assigned: bool,
    /// Its value is surely not None.
    pub not_none: bool,
}

/// In the order in which they were first typed, the parameters first.
pub type Locals = Sequence<Local>;

/// What is known at a point of a method.
#[derive(Drop)]
pub struct FlowEnv {
    /// The number of the class.
    pub class: u32,
    /// The number of the method, which has none in `__init__`.
    pub method: Option<u32>,
    pub locals: Locals,
}
