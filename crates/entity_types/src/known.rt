//! Scopes, as they are made, narrowed and read.

ghost use Rattle.std.specs.Prelude.{◌≡◌, not, Ok, IfOk};
ghost use Rattle.py_tree.specs.declared.rule.Rule.TheVariants.{Unassigned};
ghost use Rattle.py_tree.specs.PlainTypes.{plain_ty};
ghost use Rattle.py_tree.specs.PlainExpressions.{plain_expr};
ghost use Rattle.py_tree.specs.FlowEnvironment.{where_test};
ghost use Rattle.py_tree.specs.ExpressionTypes as spec;
ghost use Rattle.entity_types.specs.Answers.{Types};
ghost use Rattle.entity_types.specs.Views.{plain_env, plain_local};
ghost use Rattle.entity_types.specs.Scopes.{plain_scope};

use crate::env::{FlowEnv, Local};
use crate::fault::{refuse, told};
use crate::narrowing::mark_shown;
use crate::scope::Scope;
use crate::types::inside;
use entity_tables::RuleError;
use py_tree::{Expr, Name, Place, Rule, Ty};
use sf_list::{Sequence, TryClone};
use std::alloc::{AllocError, Global};

/// The scope in which nothing is known but the environment.
#[tactic(auto, using(crate::proofs::ScopeLaws::whole_laws), unfolding(crate::specs::Scopes::plain_scope))]
pub fn whole(alloc: Global, env: &FlowEnv) -> Result<Scope<'_>, AllocError>
    ensures { IfOk result (λ scope. plain_scope scope ≡ plain_env env.now) }
{
    let mut not_none = Sequence::new(alloc);
    for local in env.locals.as_slice() {
        not_none.push(alloc, local.not_none)?;
    }
    Ok(Scope { env, not_none })
}

/// A scope in which as much is known.
#[tactic(auto, unfolding(crate::specs::Scopes::plain_scope))]
pub fn copy_scope<'a>(alloc: Global, scope: &Scope<'a>) -> Result<Scope<'a>, AllocError>
    ensures { IfOk result (λ made. plain_scope made ≡ plain_scope scope.now) }
{
    let mut not_none = Sequence::new(alloc);
    not_none.extend_from_slice(alloc, scope.not_none.as_slice())?;
    Ok(Scope {
        env: scope.env,
        not_none,
    })
}

/// What is known besides where a test is True, or where it is False.
#[tactic(auto, unfolding(crate::specs::Scopes::plain_scope, py_tree::specs::FlowEnvironment::where_test))]
pub fn narrow_scope(scope: &mut Scope<'_>, test: &Expr, truth: bool)
    ensures { plain_scope scope.new ≡ where_test truth (plain_expr test.now) (plain_scope scope.old) }
{
    let locals = scope.env.locals.as_slice();
    mark_shown(locals, &mut scope.not_none, test, truth);
}

/// The type of a local as it is read, where it is surely not None or not.
fn read_local(alloc: Global, place: Place, local: &Local, not_none: bool) -> Result<Ty, RuleError>
    ensures { Types plain_ty (spec.refuse_if (not local.now.assigned) Unassigned place
        (Ok (spec.read_ty (record (plain_local local.now) { not_none = not_none })))) result }
{
    refuse(!local.assigned, Rule::Unassigned, place)?;
    if not_none {
        return Ok(inside(&local.ty).try_clone(alloc)?);
    }
    Ok(local.ty.try_clone(alloc)?)
}

/// The type of a name.
#[tactic(auto, using(crate::proofs::ScopeLaws::read_laws), unfolding(crate::specs::Scopes::plain_scope, py_tree::specs::ExpressionTypes::type_of_name))]
pub fn variable_ty(
    alloc: Global,
    scope: &Scope<'_>,
    place: Place,
    name: Name,
) -> Result<Ty, RuleError>
    ensures { Types plain_ty (spec.type_of_name (plain_scope scope.now).locals place name.0) result }
{
    let locals = scope.env.locals.as_slice();
    let not_none = scope.not_none.as_slice();
    for i in 0..locals.len() {
        let local = &locals[i];
        if local.name.0 == name.0 {
            return read_local(alloc, place, local, not_none[i]);
        }
    }
    Err(told(Rule::UnknownName, place))
}
