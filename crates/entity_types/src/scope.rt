//! What is known at a point within an expression.

ghost use Rattle.std.specs.Prelude.{◌≡◌, length};

use crate::env::FlowEnv;
use sf_list::Sequence;

/// An environment, and of each of its locals whether it is surely not None at a point within an
/// expression: tests within it show more than the environment has, and type nothing anew.
#[derive(Drop)]
pub struct Scope<'a> {
    pub env: &'a FlowEnv,
    pub not_none: Sequence<bool>,
    ghost each: { length not_none ≡ length env.now.locals },
}
