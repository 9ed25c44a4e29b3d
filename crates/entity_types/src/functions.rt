//! The functions of the language, what they ask and what they give.

ghost use Rattle.std.specs.Prelude.{◌≡◌};
ghost use Rattle.py_tree.specs.PlainTypes.{plain_ty};
ghost use Rattle.py_tree.specs.Functions.{plain_function};
ghost use Rattle.entity_types.specs.Functions as spec;

use crate::types::{is_int, is_list, is_str};
use py_tree::{Function, Ty};

/// How many arguments it has.
pub fn count_asked(function: Function) -> usize
    ensures { result ≡ spec.count_asked (plain_function function) }
{
    match function {
        Function::Length | Function::Text | Function::Absolute => 1,
        Function::Least | Function::Greatest => 2,
    }
}

/// Whether an argument may have this type.
pub fn is_asked(function: Function, ty: &Ty) -> bool
    ensures { result ≡ spec.asked (plain_function function) (plain_ty ty.now) }
{
    match function {
        Function::Length => is_str(ty) || is_list(ty),
        Function::Text | Function::Absolute | Function::Least | Function::Greatest => is_int(ty),
    }
}

/// The type of the result.
#[tactic(auto, using(py_tree::proofs::Views::ty_views))]
pub fn given(function: Function) -> Ty
    ensures { plain_ty result ≡ spec.given (plain_function function) }
{
    match function {
        Function::Text => Ty::Str,
        Function::Length | Function::Absolute | Function::Least | Function::Greatest => Ty::Int,
    }
}
