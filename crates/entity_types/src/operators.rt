//! Rules on operands and operators, behind the types of their sides.

ghost use Rattle.std.specs.Prelude.{◌≡◌, Ok};
ghost use Rattle.py_tree.specs.PlainTypes.{plain_ty, TInt, TBool};
ghost use Rattle.py_tree.specs.ExpressionTypes as spec;
ghost use Rattle.entity_types.specs.Answers.{Types, Checks};
ghost use Rattle.py_tree.specs.Functions.{plain_function};
ghost use Rattle.entity_types.specs.Functions.{asked};

use crate::fault::refuse;
use crate::functions::is_asked;
use crate::types::{has_join, has_none, is_bool, is_int, is_list, is_str, same};
use entity_tables::RuleError;
use py_tree::{BinOp, Cmp, Function, Place, Rule, Ty};

/// Both are whole numbers.
pub fn are_ints(s: &Ty, t: &Ty) -> bool
    ensures { result ≡ spec.are_ints (plain_ty s.now) (plain_ty t.now) }
{
    is_int(s) && is_int(t)
}

/// Two texts or two lists of one type are joined.
fn are_joined(s: &Ty, t: &Ty) -> bool
    ensures { result ≡ spec.are_joined (plain_ty s.now) (plain_ty t.now) }
{
    same(s, t) && (is_str(s) || is_list(s))
}

pub fn is_plus(op: BinOp) -> bool
    ensures { result ≡ spec.is_plus op }
{
    match op {
        BinOp::Add => true,
        BinOp::Sub | BinOp::Mul | BinOp::FloorDiv | BinOp::Mod => false,
    }
}

/// The type of `a op b` with these types of its sides, told at the operator.
#[tactic(auto, unfolding(py_tree::specs::ExpressionTypes::combined))]
pub fn combined(op: BinOp, place: Place, left: Ty, right: &Ty) -> Result<Ty, RuleError>
    ensures { Types plain_ty (spec.combined op place (plain_ty left) (plain_ty right.now)) result }
{
    refuse(has_none(&left) || has_none(right), Rule::NoneUse, place)?;
    let fit = are_ints(&left, right) || (is_plus(op) && are_joined(&left, right));
    refuse(!fit, Rule::Operand, place)?;
    Ok(left)
}

/// `a < b` and the like.
#[tactic(auto, using(py_tree::proofs::Views::ty_views), unfolding(py_tree::specs::ExpressionTypes::ordered))]
fn ordered(place: Place, s: &Ty, t: &Ty) -> Result<Ty, RuleError>
    ensures { Types plain_ty (spec.ordered place (plain_ty s.now) (plain_ty t.now)) result }
{
    refuse(has_none(s) || has_none(t), Rule::NoneUse, place)?;
    let fit = are_ints(s, t) || (is_str(s) && is_str(t));
    refuse(!fit, Rule::Operand, place)?;
    Ok(Ty::Bool)
}

/// `a == b` and `a != b`.
#[tactic(auto, using(py_tree::proofs::Views::ty_views), unfolding(py_tree::specs::ExpressionTypes::compared))]
fn compared(place: Place, s: &Ty, t: &Ty) -> Result<Ty, RuleError>
    ensures { Types plain_ty (spec.compared place (plain_ty s.now) (plain_ty t.now)) result }
{
    refuse(!has_join(s, t), Rule::Mismatch, place)?;
    Ok(Ty::Bool)
}

/// The type of a comparison with these types of its sides.
#[tactic(auto, unfolding(py_tree::specs::ExpressionTypes::comparison))]
pub(crate) fn comparison(
    op: Cmp,
    op_at: Place,
    right_at: Place,
    left: &Ty,
    right: &Ty,
) -> Result<Ty, RuleError>
    ensures { Types plain_ty (spec.comparison op op_at right_at (plain_ty left.now) (plain_ty right.now)) result }
{
    match op {
        Cmp::Eq | Cmp::Ne => compared(right_at, left, right),
        Cmp::Lt | Cmp::Gt | Cmp::Le | Cmp::Ge => ordered(op_at, left, right),
    }
}

/// The type of `-a` or `+a` with this type of `a`.
#[tactic(auto, using(py_tree::proofs::Views::ty_views))]
pub(crate) fn signed(place: Place, ty: &Ty) -> Result<Ty, RuleError>
    ensures { Types plain_ty (spec.operand (plain_ty ty.now) spec.is_int place (Ok TInt)) result }
{
    refuse(has_none(ty), Rule::NoneUse, place)?;
    refuse(!is_int(ty), Rule::Operand, place)?;
    Ok(Ty::Int)
}

/// That an operand of `not`, `and` or `or`, or a test, has this type.
pub(crate) fn check_condition(place: Place, ty: &Ty) -> Result<(), RuleError>
    ensures { Checks (spec.operand (plain_ty ty.now) spec.is_bool place (Ok TBool)) result }
{
    refuse(has_none(ty), Rule::NoneUse, place)?;
    refuse(!is_bool(ty), Rule::Operand, place)
}

/// That an argument of a function has this type.
pub(crate) fn check_asked(function: Function, place: Place, ty: &Ty) -> Result<(), RuleError>
    ensures { Checks (spec.operand (plain_ty ty.now) (asked (plain_function function)) place (Ok TBool)) result }
{
    refuse(has_none(ty), Rule::NoneUse, place)?;
    refuse(!is_asked(function, ty), Rule::Operand, place)
}
