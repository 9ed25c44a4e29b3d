//! The wanted types of expressions in a list.

ghost use Rattle.std.specs.Prelude.{◌≡◌, [], ◌∷◌, ◌++◌, ◌<◌, ◌≤◌, ℕ, Some, true, false, map, drop, IfOk, OnOk};
ghost use Rattle.py_tree.specs.PlainTypes.{plain_ty};
ghost use Rattle.py_tree.specs.PlainExpressions.{plain_exprs, exprs_of};
ghost use Rattle.py_tree.specs.ExpressionTypes.{function_of as the_function_of};
ghost use Rattle.call_graph.specs.SuspendingCode.{exprs_suspend};
ghost use Rattle.entity_tables.specs.Views.{plain_sig_param};
ghost use Rattle.entity_types.specs.Views.{plain_wanted};
ghost use Rattle.hoisting.specs.HoistExpressions as spec;
ghost use Rattle.hoisting.specs.Views.{context_of, leaves_of};
ghost use Rattle.expression_hoister.specs.ExpressionViews as gives;
ghost use Rattle.expression_hoister.specs.ExpressionViews.{plain_each_wanted};

use entity_tables::SigParam;
use flow_types::Locals;
use hoisting::Setting;
use py_tree::{Expr, Name, Ty, function_of};
use sf_list::{Sequence, TryClone};
use std::alloc::{AllocError, Global};

pub type EachWanted = Sequence<Option<Ty>>;

/// Adds a wanted type.
fn add_wanted(alloc: Global, made: &mut EachWanted, ty: &Ty) -> Result<(), AllocError>
    ensures { OnOk result (plain_each_wanted made.new ≡ plain_each_wanted made.old ++ Some (plain_ty ty.now) ∷ []) }
{
    let ty = ty.try_clone(alloc)?;
    made.push(alloc, Some(ty))
}

/// Those of parameters.
pub fn by_params(alloc: Global, params: &[SigParam]) -> Result<EachWanted, AllocError>
    ensures { IfOk result (λ made. plain_each_wanted made ≡ spec.by_params (map plain_sig_param params.now)) }
{
    let mut made = Sequence::new(alloc);
    for param in params {
        add_wanted(alloc, &mut made, &param.ty)?;
    }
    Ok(made)
}

/// Adds one type for each of these expressions.
fn add_same(alloc: Global, made: &mut EachWanted, ty: &Ty, items: &[Expr]) -> Result<(), AllocError>
    ensures { OnOk result (plain_each_wanted made.new ≡ plain_each_wanted made.old ++ gives.same_wanted ty.now items.now) }
{
    for item in items {
        add_wanted(alloc, made, ty)?;
    }
    Ok(())
}

/// Those of the elements of a list: the wanted one, or that of the first element.
pub fn by_elements(
    alloc: Global,
    setting: &Setting<'_>,
    locals: &Locals,
    wanted: Option<&Ty>,
    items: &[Expr],
) -> Result<EachWanted, AllocError>
    ensures { IfOk result (λ made. plain_each_wanted made ≡ gives.elements_wanted setting.now wanted.entry locals.now items.now) }
{
    let mut made = Sequence::new(alloc);
    if let Some(ty) = wanted {
        add_same(alloc, &mut made, ty, items)?;
        return Ok(made);
    }
    if items.is_empty() {
        return Ok(made);
    }
    let ty = setting.ty_at(alloc, locals, None, &items[0])?;
    made.push(alloc, None)?;
    add_same(alloc, &mut made, &ty, &items[1..])?;
    Ok(made)
}

/// Those of the arguments of a function, or of a creation.
pub fn by_function(
    alloc: Global,
    setting: &Setting<'_>,
    name: Name,
) -> Result<EachWanted, AllocError>
    ensures { IfOk result (λ made. plain_each_wanted made ≡ spec.by_function (context_of setting.now) (the_function_of name.0) name.0) }
{
    match function_of(name) {
        Some(_) => Ok(Sequence::new(alloc)),
        None => by_params(alloc, setting.init_params(name)),
    }
}

/// The wanted type of the expression at this place.
#[tactic(auto, using(crate::proofs::WantLaws::wanted_laws))]
pub fn wanted_at(wanted: &[Option<Ty>], at: usize) -> Option<&Ty>
    ensures { plain_wanted result ≡ spec.first_wanted (plain_each_wanted (drop at wanted.now)) }
{
    if at >= wanted.len() {
        return None;
    }
    match &wanted[at] {
        None => None,
        Some(ty) => Some(ty),
    }
}

/// How many expressions there are up to the last that may suspend.
pub fn up_to_last(setting: &Setting<'_>, items: &[Expr]) -> usize
    ensures before { (k : ℕ) → k < result → exprs_suspend (leaves_of setting.now) (exprs_of (plain_exprs (drop k items.now))) ≡ true }
    ensures behind { (k : ℕ) → result ≤ k → exprs_suspend (leaves_of setting.now) (exprs_of (plain_exprs (drop k items.now))) ≡ false }
{
    let mut count = items.len();
    while count > 0 {
        if setting.suspends(&items[count - 1]) {
            return count;
        }
        count -= 1;
    }
    0
}
