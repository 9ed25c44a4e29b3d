//! The functions of the language.

ghost use Rattle.std.specs.Prelude.{◌≡◌, option_map};
ghost use Rattle.py_tree.specs.ExpressionTypes.{function_of as the_function_of};
ghost use Rattle.py_tree.specs.Functions.{plain_function};

use crate::names::Name;

/// A function of the language.
#[derive(Clone, Copy)]
pub enum Function {
    /// `len`
    Length,
    /// `str`
    Text,
    /// `abs`
    Absolute,
    /// `min`
    Least,
    /// `max`
    Greatest,
}

/// The function of this name. The reserved names have the same numbers in each table of names.
#[tactic(auto, unfolding(crate::specs::ExpressionTypes::function_of))]
pub fn function_of(name: Name) -> Option<Function>
    ensures { option_map plain_function result ≡ the_function_of name.0 }
{
    match name.0 {
        7 => Some(Function::Length),
        3 => Some(Function::Text),
        8 => Some(Function::Absolute),
        9 => Some(Function::Least),
        10 => Some(Function::Greatest),
        _ => None,
    }
}
